// The end of a quantity: its exponent, if it has one.
ghost use Rattle.std.specs.Prelude.{◌≡◌, ◌<◌, IfSome, if◌then◌else◌};
ghost use Rattle.fixed_units.specs.Quantity.{number, are_few_digits, is_exponent, tens_up};
ghost use Rattle.fixed_units.specs.Quantity.{tens_down};
ghost use Rattle.fixed_units.specs.Reading.{end_of};

use crate::leading::{Leading, walk};
use crate::sign::split_sign;

/// The most digits of an exponent.
pub(crate) const MOST_EXPONENT_DIGITS: usize = 3;

/// The power of ten that a quantity is multiplied by, and the one that it is divided by.
#[derive(Clone, Copy)]
pub(crate) struct Tens {
    pub up: u64,
    pub down: u64,
}

/// Reads what stands after a quantity's digits: nothing, or an exponent.
pub(crate) fn read_end(text: &[u8]) -> Option<Tens>
    ensures value { result ≡ end_of text.now }
    ensures small { IfSome result (λ tens. (tens.up < 1000) × (tens.down < 1000)) }
{
    match text.split_first() {
        None => Some(Tens { up: 0, down: 0 }),
        Some((b'e' | b'E', exponent)) => read_exponent(exponent),
        Some(_) => None,
    }
}

fn read_exponent(text: &[u8]) -> Option<Tens>
    ensures value { result ≡ (if is_exponent text.now
        then Some (record { up = tens_up text.now; down = tens_down text.now })
        else None) }
    ensures small { IfSome result (λ tens. (tens.up < 1000) × (tens.down < 1000)) }
{
    let signed = split_sign(text);
    let tens = three_digits(signed.rest)?;
    if signed.minus {
        Some(Tens { up: 0, down: tens })
    } else {
        Some(Tens { up: tens, down: 0 })
    }
}

// The number that one to three digits write.
fn three_digits(text: &[u8]) -> Option<u64>
    ensures value { result ≡ (if are_few_digits text.now then Some (number text.now) else None) }
    ensures small { IfSome result (λ tens. tens < 1000) }
{
    let run = walk(Leading::none(), text);
    if run.digits.is_empty() {
        return None;
    }
    if run.digits.len() > MOST_EXPONENT_DIGITS {
        return None;
    }
    if !run.rest.is_empty() {
        return None;
    }
    Some(run.leading.value)
}
