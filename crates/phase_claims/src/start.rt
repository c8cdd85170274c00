// The parts of a loading, in the places of a floor, and its words.
ghost use Rattle.std.specs.Prelude.{◌≡◌, ◌+◌, ◌++◌, ◌∷◌, [], IfOk, map, replicate};

use crate::noted_cell::NotedCell;
use crate::part::Part;
use crate::work_told::FIRST_NODE_WORD;
use monitors::WriterPass;
use net_core::Memory;
use node_transfer::{Mail, NodeCell};
use std::alloc::Global;

/// The words, with so many nodes: nothing is claimed, and no node is told.
pub(crate) fn words_at_start(alloc: Global, nodes: u32) -> Result<Vec<u64>, Memory>
    ensures { IfOk result (λ words. words.items ≡ replicate (FIRST_NODE_WORD + nodes) 0) }
{
    let words = Vec::from_elem(alloc, 0, FIRST_NODE_WORD + nodes as usize)?;
    Ok(words)
}

/// The places: the cells of the nodes, the mail of the links, and the writer's pass.
pub(crate) fn parts_at_start(
    alloc: Global,
    cells: Vec<NodeCell>,
    mail: Vec<Mail>,
    writer: WriterPass,
) -> Result<Vec<Part>, Memory>
    ensures { IfOk result (λ parts. parts.items ≡
        map Part.Cell cells.items ++ map Part.Mail mail.items ++ Part.Writer writer ∷ []) }
{
    let mut parts = Vec::new(alloc);
    for cell in cells {
        put(&mut parts, Part::Cell(NotedCell::new(cell)))?;
    }
    for letter in mail {
        put(&mut parts, Part::Mail(letter))?;
    }
    put(&mut parts, Part::Writer(writer))?;
    Ok(parts)
}

// Puts a part behind the others.
fn put(parts: &mut Vec<Part>, part: Part) -> Result<(), Memory>
    ensures { IfOk result (λ _. parts.new.items ≡ parts.old.items ++ part ∷ []) }
{
    parts.push(part)?;
    Ok(())
}
