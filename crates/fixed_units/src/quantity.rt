// Quantities: lengths, lanes, speeds, capacities, penalties and volumes as tables spell them.
ghost use Rattle.std.specs.Prelude.{◌≡◌, ◌≤◌, ◌↔◌, IfOk, if◌then◌else◌};
ghost use Rattle.fixed_units.specs.declared.fault.NumberFault.TheVariants as fault;
ghost use Rattle.fixed_units.specs.Quantity.{IsQuantity, is_unsigned_quantity, thousandths};
ghost use Rattle.fixed_units.specs.Quantity.{numerator, denominator, milli_of};
ghost use Rattle.fixed_units.specs.Spelling.{SpellingsAreRead, QuantitiesAreSpelled};

use crate::decimal::{read_decimal, scaled};
use crate::exponent::read_end;
use crate::fault::NumberFault;
use crate::sign::split_sign;

/// The most bytes of a quantity's text.
pub const MOST_BYTES: usize = 64;

/// The greatest quantity, in thousandths.
pub const MOST_THOUSANDTHS: u64 = 1_000_000_000_000;

/// Reads a quantity, in thousandths: perhaps a sign, then digits with at most one point, and then
/// perhaps an exponent of one to three digits. What is finer than a thousandth is dropped.
pub fn milli(text: &[u8]) -> Result<u64, NumberFault>
    ensures value { result ≡ milli_of text.now }
    ensures spelled { (result ≡ Err NumberFault.NotNumber) ↔ ¬ IsQuantity text.now }
    ensures range { IfOk result (λ quantity. quantity ≤ MOST_THOUSANDTHS) }
{
    if text.len() > MOST_BYTES {
        return Err(NumberFault::NotNumber);
    }
    let signed = split_sign(text);
    unsigned_quantity(signed.minus, signed.rest)
}

// What stands after a sign, or where none stands.
#[tactic(auto, using(crate::proofs::Splits::splits))]
fn unsigned_quantity(minus: bool, text: &[u8]) -> Result<u64, NumberFault>
    ensures { result ≡ (if is_unsigned_quantity text.now
        then thousandths minus (numerator text.now) (denominator text.now)
        else Err fault.NotNumber) }
{
    let decimal = read_decimal(text);
    let tens = match read_end(decimal.rest) {
        Some(tens) => tens,
        None => return Err(NumberFault::NotNumber),
    };
    if decimal.whole.len() + decimal.fraction.len() == 0 {
        return Err(NumberFault::NotNumber);
    }
    if minus && !decimal.leading.is_zero() {
        return Err(NumberFault::OutOfRange);
    }
    scaled(
        decimal.leading,
        tens.up,
        decimal.fraction.len() as u64 + tens.down,
    )
}

/// The law that the quantities are exactly what the grammar of specs/Spelling.antt spells, and
/// that `milli` reads each by its exact value.
pub fn quantities_are_spellings()
    ensures read { SpellingsAreRead }
    ensures spelled { QuantitiesAreSpelled }
{}
