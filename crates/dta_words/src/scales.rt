// Multiples of a demand.
ghost use Rattle.std.specs.Prelude.{◌≡◌, [], IfOk, option_map};
ghost use Rattle.clap.specs.Walk.{texts};
ghost use Rattle.dta_words.specs.Pieces.{values_of};
ghost use Rattle.dta_words.specs.Scales.{scale_of as scale_written, scales_in as scales_in_text};

use crate::options::{GREATEST_SCALE, LEAST_SCALE, MOST_SCALES};
use crate::pieces::pieces;
use desk_io::Memory;
use fixed_units::milli;
use item_list::List;
use std::alloc::Global;

/// Multiples of a demand in thousandths, in the order in which they were given.
pub type Scales = List<u64>;

/// The multiple that a piece writes, in thousandths, if it is within the bounds.
fn scale_of(piece: &str) -> Option<u64>
    ensures { result ≡ scale_written piece.now }
{
    let scale = milli(piece.as_bytes()).ok()?;
    if LEAST_SCALE <= scale && scale <= GREATEST_SCALE {
        Some(scale)
    } else {
        None
    }
}

/// The multiples that pieces write, if each of them writes one.
fn scales_of(alloc: Global, pieces: &[&str]) -> Result<Option<Vec<u64>>, Memory>
    ensures { IfOk result (λ scales.
        option_map (λ s. s.items) scales ≡ values_of scale_written (texts pieces.now)) }
{
    let mut scales = Vec::new(alloc);
    for piece in pieces {
        match scale_of(*piece) {
            None => return Ok(None),
            Some(scale) => scales.push(scale)?,
        }
    }
    Ok(Some(scales))
}

/// The multiples that a text writes, if they are 1 to 16 and each is within the bounds.
pub(crate) fn scales_in(alloc: Global, text: &str) -> Result<Option<Scales>, Memory>
    ensures { IfOk result (λ scales. scales ≡ scales_in_text text.now) }
{
    let pieces = pieces(alloc, text)?;
    if pieces.len() > MOST_SCALES {
        return Ok(None);
    }
    match scales_of(alloc, pieces.as_slice())? {
        None => Ok(None),
        Some(scales) => Ok(Some(Scales::of(scales))),
    }
}

/// No multiples.
pub(crate) fn no_scales(alloc: Global) -> Scales
    ensures { result ≡ [] }
{
    Scales::of(Vec::new(alloc))
}
