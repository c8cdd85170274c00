// The digits of a quantity around its point, and the thousandths that they come to.
ghost use Rattle.std.specs.Prelude.{◌≡◌, ◌≤◌, ◌<◌, ◌+◌, ◌*◌, ◌/◌, ◌^◌, ◌++◌, ℕ};
ghost use Rattle.fixed_units.specs.Quantity.{number, within};
ghost use Rattle.fixed_units.specs.Reading.{IsLeading, IsSplit};

use crate::fault::NumberFault;
use crate::leading::{Leading, walk};
use crate::quantity::MOST_THOUSANDTHS;

/// The powers of ten of the greatest quantity in thousandths, and of the greatest in a `u64`.
const RANGE_TENS: u64 = 12;

const WORD_TENS: u64 = 19;

/// Digits before and after a point, and what stands after them.
#[derive(Clone, Copy)]
pub(crate) struct Decimal<'a> {
    pub whole: &'a [u8],
    pub fraction: &'a [u8],
    pub rest: &'a [u8],
    pub leading: Leading,
}

/// Reads digits, and then perhaps a point and digits.
#[tactic(auto, using(crate::proofs::Leads::leads))]
pub(crate) fn read_decimal(text: &[u8]) -> Decimal<'_>
    ensures split { IsSplit text.now result.whole.now result.fraction.now result.rest.now }
    ensures leading { IsLeading (number (result.whole.now ++ result.fraction.now)) result.leading }
    ensures dropped { result.leading.dropped < 2 ^ 63 }
{
    let whole = walk(Leading::none(), text);
    match whole.rest.split_first() {
        Some((b'.', after)) => {
            let fraction = walk(whole.leading, after);
            Decimal {
                whole: whole.digits,
                fraction: fraction.digits,
                rest: fraction.rest,
                leading: fraction.leading,
            }
        }
        _ => Decimal {
            whole: whole.digits,
            fraction: &[],
            rest: whole.rest,
            leading: whole.leading,
        },
    }
}

/// The floor of a thousand times the number, multiplied and divided by these powers of ten.
#[tactic(auto, using(crate::proofs::Scales::scales))]
pub(crate) fn scaled(leading: Leading, up: u64, down: u64) -> Result<u64, NumberFault>
    requires dropped { leading.dropped < 2 ^ 63 }
    requires up { up < 2 ^ 62 }
    ensures { (whole : ℕ) → IsLeading whole leading
        → result ≡ within MOST_THOUSANDTHS (1000 * (whole * 10 ^ up) / 10 ^ down) }
{
    let up = 3 + up + leading.dropped as u64;
    if up < down {
        lowered(leading.value, down - up)
    } else {
        raised(leading.value, up - down)
    }
}

// The value times a power of ten, where it is in range.
#[tactic(auto, using(crate::proofs::Scales::scales))]
fn raised(value: u64, tens: u64) -> Result<u64, NumberFault>
    ensures { result ≡ within MOST_THOUSANDTHS (value * 10 ^ tens) }
{
    if value == 0 {
        return Ok(0);
    }
    if tens > RANGE_TENS {
        return Err(NumberFault::OutOfRange);
    }
    let raised = u128::from(value) * 10u128.pow(tens as u32);
    if raised > u128::from(MOST_THOUSANDTHS) {
        Err(NumberFault::OutOfRange)
    } else {
        Ok(raised as u64)
    }
}

// The floor of the value over a power of ten, where it is in range.
#[tactic(auto, using(crate::proofs::Scales::scales))]
fn lowered(value: u64, tens: u64) -> Result<u64, NumberFault>
    ensures { result ≡ within MOST_THOUSANDTHS (value / 10 ^ tens) }
{
    if tens > WORD_TENS {
        return Ok(0);
    }
    let lowered = value / 10u64.pow(tens as u32);
    if lowered > MOST_THOUSANDTHS {
        Err(NumberFault::OutOfRange)
    } else {
        Ok(lowered)
    }
}
