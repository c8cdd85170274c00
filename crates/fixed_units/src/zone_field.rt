// The zone field of a node table.
ghost use Rattle.std.specs.Prelude.{◌≡◌};
ghost use Rattle.fixed_units.specs.Zone.{is_minus_one as is_minus_one_of, zone_of};

use crate::fault::NumberFault;
use crate::identifier::whole;

/// Reads the zone field of a node table: none where it is empty, an identifier of value 0, or `-`
/// before an identifier of value 1, as tables of other programs write it; and else its identifier.
pub fn zone(text: &[u8]) -> Result<Option<u64>, NumberFault>
    ensures { result ≡ zone_of text.now }
{
    if text.is_empty() || is_minus_one(text) {
        return Ok(None);
    }
    match whole(text) {
        Ok(value) => Ok(if value == 0 { None } else { Some(value) }),
        Err(fault) => Err(fault),
    }
}

// Whether this is a minus before an identifier of value 1.
fn is_minus_one(text: &[u8]) -> bool
    ensures { result ≡ is_minus_one_of text.now }
{
    match text.split_first() {
        Some((b'-', rest)) => match whole(rest) {
            Ok(value) => value == 1,
            Err(_) => false,
        },
        _ => false,
    }
}
