// The demand table of a grid.
ghost use Rattle.std.specs.Prelude.{◌≡◌, ◌++◌, flat_map, OnOk, IfOk};
ghost use Rattle.grid_maker.specs.Grid.{demand_header, demand_line, demand_text, zones};

use crate::draft::Draft;
use desk_io::Text;
use std::alloc::{AllocError, Global};

/// The zones are numbered from 1 to this.
const ZONES: u64 = 4;

/// The volume of each pair of zones, for each row of the grid.
const VOLUME: u64 = 25;

// The first line.
#[tactic(auto, unfolding(crate::specs::Grid::demand_header))]
fn header(alloc: Global) -> Result<Draft, AllocError>
    ensures { IfOk result (λ text. text ≡ demand_header) }
{
    let mut text = Draft::new(alloc);
    text.push(b"o_zone_id,d_zone_id,volume\n")?;
    Ok(text)
}

// Adds the line of a pair of zones: none for a zone and itself.
#[tactic(auto, using(crate::proofs::GridFacts::pieces), unfolding(crate::specs::Grid::demand_line))]
fn push_pair(text: &mut Draft, side: u32, origin: u64, destination: u64) -> Result<(), AllocError>
    ensures { OnOk result (text.new ≡ text.old ++ demand_line side origin destination) }
{
    if origin == destination {
        return Ok(());
    }
    text.push_number(origin)?;
    text.push(b",")?;
    text.push_number(destination)?;
    text.push(b",")?;
    text.push_number(VOLUME * u64::from(side))?;
    text.push(b"\n")
}

// Adds the lines of an origin.
#[tactic(auto, using(crate::proofs::GridFacts::counts))]
fn push_origin(text: &mut Draft, side: u32, origin: u64) -> Result<(), AllocError>
    ensures { OnOk result (text.new ≡ text.old ++ flat_map (demand_line side origin) zones) }
{
    'each: for destination in 1..=ZONES {
        push_pair(text, side, origin, destination)?;
    }
    Ok(())
}

/// The whole table.
#[tactic(auto, using(crate::proofs::GridFacts::counts), unfolding(crate::specs::Grid::demand_text))]
pub(crate) fn demand_table(alloc: Global, side: u32) -> Result<Text, AllocError>
    ensures { IfOk result (λ text. text ≡ demand_text side) }
{
    let mut text = header(alloc)?;
    'each: for origin in 1..=ZONES {
        push_origin(&mut text, side, origin)?;
    }
    Ok(text.finish())
}
