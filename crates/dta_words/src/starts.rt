// Lists of steps in words.
ghost use Rattle.std.specs.Prelude.{◌≡◌, ◌∷◌, [], IfOk, option_map};
ghost use Rattle.clap.specs.Walk.{texts};
ghost use Rattle.dta_words.specs.Pieces.{values_of};
ghost use Rattle.dta_words.specs.Starts.{start_of as start_written, starts_of};

use crate::numbers::number_of;
use crate::options::MOST_STARTS;
use crate::pieces::pieces;
use desk_io::Memory;
use dta_model::Steps;
use std::alloc::Global;

/// The step that a piece writes, if it is below the horizon.
fn start_of(piece: &str, horizon: u32) -> Option<u32>
    ensures { result ≡ start_written horizon piece.now }
{
    let step = number_of(piece)?;
    if step < horizon { Some(step) } else { None }
}

/// The steps that pieces write, if each of them writes one.
fn steps_of(alloc: Global, pieces: &[&str], horizon: u32) -> Result<Option<Vec<u32>>, Memory>
    ensures { IfOk result (λ steps.
        option_map (λ s. s.items) steps ≡ values_of (start_written horizon) (texts pieces.now)) }
{
    let mut steps = Vec::new(alloc);
    for piece in pieces {
        match start_of(*piece, horizon) {
            None => return Ok(None),
            Some(step) => steps.push(step)?,
        }
    }
    Ok(Some(steps))
}

/// The steps that a text writes, if they are 1 to 64 and each is below the horizon.
pub(crate) fn starts_in(alloc: Global, text: &str, horizon: u32) -> Result<Option<Steps>, Memory>
    ensures { IfOk result (λ starts. starts ≡ starts_of horizon text.now) }
{
    let pieces = pieces(alloc, text)?;
    if pieces.len() > MOST_STARTS {
        return Ok(None);
    }
    match steps_of(alloc, pieces.as_slice(), horizon)? {
        None => Ok(None),
        Some(steps) => Ok(Some(Steps::of(steps))),
    }
}

/// Step 0 alone.
pub(crate) fn first_step(alloc: Global) -> Result<Steps, Memory>
    ensures { IfOk result (λ starts. starts ≡ 0 ∷ []) }
{
    let mut steps = Vec::new(alloc);
    steps.push(0)?;
    Ok(Steps::of(steps))
}
