// The link table of a grid.
ghost use Rattle.std.specs.Prelude.{◌≡◌, ◌<◌, ◌++◌, OnOk, IfOk};
ghost use Rattle.grid_maker.specs.Grid.{link_header, link_line, link_text};

use crate::draft::Draft;
use crate::links::{GridLink, all_links};
use desk_io::Text;
use std::alloc::{AllocError, Global};

// The first line.
#[tactic(auto, unfolding(crate::specs::Grid::link_header))]
fn header(alloc: Global) -> Result<Draft, AllocError>
    ensures { IfOk result (λ text. text ≡ link_header) }
{
    let mut text = Draft::new(alloc);
    text.push(b"link_id,from_node_id,to_node_id,length,lanes,free_speed,capacity\n")?;
    Ok(text)
}

// Adds the line of a link.
#[tactic(auto, using(crate::proofs::GridFacts::pieces), unfolding(crate::specs::Grid::link_line))]
fn push_link(text: &mut Draft, side: u32, number: u64, link: GridLink) -> Result<(), AllocError>
    ensures { OnOk result (text.new ≡ text.old ++ link_line side number link) }
{
    text.push_number(number)?;
    text.push(b",")?;
    text.push_number(link.from.node_id(side))?;
    text.push(b",")?;
    text.push_number(link.to.node_id(side))?;
    text.push(b",")?;
    text.push_number(link.metres())?;
    // One lane, a free speed of 40 and a capacity of 900.
    text.push(b",1,40,900\n")
}

/// The whole table.
#[tactic(auto, using(crate::proofs::GridFacts::counts), unfolding(crate::specs::Grid::link_text))]
pub(crate) fn link_table(alloc: Global, side: u32) -> Result<Text, AllocError>
    requires { 0 < side }
    ensures { IfOk result (λ text. text ≡ link_text side) }
{
    let links = all_links(alloc, side)?;
    let mut text = header(alloc)?;
    let mut number = 0;
    'each: for link in &links {
        number += 1;
        push_link(&mut text, side, number, *link)?;
    }
    Ok(text.finish())
}
