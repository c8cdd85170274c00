// The node table of a grid.
ghost use Rattle.std.specs.Prelude.{◌≡◌, ◌<◌, ◌++◌, OnOk, IfOk};
ghost use Rattle.grid_maker.specs.Grid.{node_header, node_line, node_text, zone_field};

use crate::draft::Draft;
use crate::places::{Place, all_places};
use desk_io::Text;
use std::alloc::{AllocError, Global};

// The first line.
#[tactic(auto, unfolding(crate::specs::Grid::node_header))]
fn header(alloc: Global) -> Result<Draft, AllocError>
    ensures { IfOk result (λ text. text ≡ node_header) }
{
    let mut text = Draft::new(alloc);
    text.push(b"node_id,zone_id\n")?;
    Ok(text)
}

// Adds a zone field.
fn push_zone(text: &mut Draft, zone: Option<u64>) -> Result<(), AllocError>
    ensures { OnOk result (text.new ≡ text.old ++ zone_field zone) }
{
    match zone {
        Some(zone) => text.push_number(zone),
        None => Ok(()),
    }
}

// Adds the line of the node at a place.
#[tactic(auto, using(crate::proofs::GridFacts::pieces), unfolding(crate::specs::Grid::node_line))]
fn push_node(text: &mut Draft, side: u32, place: Place) -> Result<(), AllocError>
    requires { 0 < side }
    ensures { OnOk result (text.new ≡ text.old ++ node_line side place) }
{
    text.push_number(place.node_id(side))?;
    text.push(b",")?;
    push_zone(text, place.zone_id(side))?;
    text.push(b"\n")
}

/// The whole table.
#[tactic(auto, using(crate::proofs::GridFacts::counts), unfolding(crate::specs::Grid::node_text))]
pub(crate) fn node_table(alloc: Global, side: u32) -> Result<Text, AllocError>
    requires { 0 < side }
    ensures { IfOk result (λ text. text ≡ node_text side) }
{
    let places = all_places(alloc, side)?;
    let mut text = header(alloc)?;
    'each: for place in &places {
        push_node(&mut text, side, *place)?;
    }
    Ok(text.finish())
}
