// Identifiers, which number nodes, links and zones.
ghost use Rattle.std.specs.Prelude.{◌≡◌, ◌≤◌, ◌==◌, IfOk, if◌then◌else◌};
ghost use Rattle.std.specs.List.{list_all};
ghost use Rattle.fixed_units.specs.declared.fault.NumberFault.TheVariants as fault;
ghost use Rattle.fixed_units.specs.Quantity.{is_identifier, are_zeros as are_zeros_of, number};
ghost use Rattle.fixed_units.specs.Quantity.{whole_part, within, whole_of};
ghost use Rattle.fixed_units.specs.Reading.{is_identifier_end as is_identifier_end_of};

use crate::fault::NumberFault;
use crate::leading::{Leading, walk};

/// The greatest identifier, 2^63 - 1.
pub const GREATEST_IDENTIFIER: u64 = 9_223_372_036_854_775_807;

/// Reads an identifier: one ASCII digit or more, of any length, and then perhaps a point and one
/// zero or more. A minus before an identifier is out of range.
#[tactic(auto, using(crate::proofs::Splits::splits))]
pub fn whole(text: &[u8]) -> Result<u64, NumberFault>
    ensures value { result ≡ whole_of text.now }
    ensures range { IfOk result (λ identifier. identifier ≤ GREATEST_IDENTIFIER) }
{
    match text.split_first() {
        Some((b'-', rest)) => match unsigned_whole(rest) {
            Err(NumberFault::NotNumber) => Err(NumberFault::NotNumber),
            _ => Err(NumberFault::OutOfRange),
        },
        _ => unsigned_whole(text),
    }
}

// An identifier with no sign.
#[tactic(auto, using(crate::proofs::Splits::splits))]
fn unsigned_whole(text: &[u8]) -> Result<u64, NumberFault>
    ensures { result ≡ (if is_identifier text.now
        then within GREATEST_IDENTIFIER (number (whole_part text.now))
        else Err fault.NotNumber) }
{
    let run = walk(Leading::none(), text);
    if run.digits.is_empty() {
        return Err(NumberFault::NotNumber);
    }
    if !is_identifier_end(run.rest) {
        return Err(NumberFault::NotNumber);
    }
    if run.leading.dropped > 0 {
        return Err(NumberFault::OutOfRange);
    }
    if run.leading.value > GREATEST_IDENTIFIER {
        return Err(NumberFault::OutOfRange);
    }
    Ok(run.leading.value)
}

fn is_identifier_end(text: &[u8]) -> bool
    ensures { result ≡ is_identifier_end_of text.now }
{
    match text.split_first() {
        None => true,
        Some((b'.', zeros)) => are_zeros(zeros),
        Some(_) => false,
    }
}

fn are_zeros(text: &[u8]) -> bool
    ensures { result ≡ are_zeros_of text.now }
{
    !text.is_empty() && all_zeros(text)
}

fn all_zeros(text: &[u8]) -> bool
    ensures { result ≡ list_all (λ byte. byte == 48) text.now }
{
    text.iter().all(|byte| *byte == b'0')
}
