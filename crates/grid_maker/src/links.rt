// The links of a grid.
ghost use Rattle.std.specs.Prelude.{◌≡◌, ◌<◌, ◌++◌, OnOk, IfOk};
ghost use Rattle.grid_maker.specs.Links.{neighbour, link_to, links_from, links};

use crate::places::{Place, all_places};
use std::alloc::{AllocError, Global};

/// Where a neighbour stands. Neighbours are taken in this order.
#[derive(Clone, Copy, Debug, PartialEq, Eq)]
pub(crate) enum Direction {
    Right,
    Down,
    Left,
    Up,
}

impl Direction {
    ghost use Rattle.grid_maker.specs.Links.{direction_number};

    /// The number of the direction, counted from 0.
    pub(crate) fn number(self) -> u64
        ensures { result ≡ direction_number self }
    {
        match self {
            Direction::Right => 0,
            Direction::Down => 1,
            Direction::Left => 2,
            Direction::Up => 3,
        }
    }
}

/// A link from a place to its neighbour in a direction.
#[derive(Clone, Copy, Debug, PartialEq, Eq)]
pub(crate) struct GridLink {
    pub(crate) from: Place,
    pub(crate) direction: Direction,
    pub(crate) to: Place,
}

/// The length of the shortest link, in metres.
const SHORTEST: u64 = 200;

/// By how many metres lengths differ, and how many lengths there are.
const LENGTH_STEP: u64 = 10;

const LENGTHS: u64 = 9;

impl GridLink {
    ghost use Rattle.grid_maker.specs.Links.{length_of};

    /// The length in metres.
    pub(crate) fn metres(self) -> u64
        ensures { result ≡ length_of self }
    {
        let mixed = 7 * u64::from(self.from.row)
            + 3 * u64::from(self.from.column)
            + self.direction.number();
        SHORTEST + LENGTH_STEP * (mixed % LENGTHS)
    }
}

// The next place in a direction, where the grid has one.
fn next_place(side: u32, place: Place, direction: Direction) -> Option<Place>
    requires { 0 < side }
    ensures { result ≡ neighbour side place direction }
{
    let Place { row, column } = place;
    let last = side - 1;
    match direction {
        Direction::Right if column < last => Some(Place {
            row,
            column: column + 1,
        }),
        Direction::Down if row < last => Some(Place {
            row: row + 1,
            column,
        }),
        Direction::Left if column > 0 => Some(Place {
            row,
            column: column - 1,
        }),
        Direction::Up if row > 0 => Some(Place {
            row: row - 1,
            column,
        }),
        _ => None,
    }
}

// Adds the link from a place in a direction, where the grid has one.
fn push_link(
    found: &mut Vec<GridLink>,
    side: u32,
    place: Place,
    direction: Direction,
) -> Result<(), AllocError>
    requires { 0 < side }
    ensures { OnOk result (found.new.items ≡
        found.old.items ++ link_to place direction (neighbour side place direction)) }
{
    if let Some(to) = next_place(side, place, direction) {
        found.push(GridLink {
            from: place,
            direction,
            to,
        })?;
    }
    Ok(())
}

// Adds the links that begin at a place.
#[tactic(auto, using(crate::proofs::GridFacts::pieces))]
fn push_links(found: &mut Vec<GridLink>, side: u32, place: Place) -> Result<(), AllocError>
    requires { 0 < side }
    ensures { OnOk result (found.new.items ≡ found.old.items ++ links_from side place) }
{
    push_link(found, side, place, Direction::Right)?;
    push_link(found, side, place, Direction::Down)?;
    push_link(found, side, place, Direction::Left)?;
    push_link(found, side, place, Direction::Up)
}

/// All links, in the order of their numbers.
#[tactic(auto, using(crate::proofs::GridFacts::counts), unfolding(crate::specs::Links::links))]
pub(crate) fn all_links(alloc: Global, side: u32) -> Result<Vec<GridLink>, AllocError>
    requires { 0 < side }
    ensures { IfOk result (λ found. found.items ≡ links side) }
{
    let places = all_places(alloc, side)?;
    let mut found = Vec::new(alloc);
    'each: for place in &places {
        push_links(&mut found, side, *place)?;
    }
    Ok(found)
}
