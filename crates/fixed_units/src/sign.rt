// The sign at the front of a number.
ghost use Rattle.std.specs.Prelude.{◌≡◌};
ghost use Rattle.fixed_units.specs.Quantity.{has_minus, unsigned};

/// Whether a text has a minus at its front, and what stands after its sign.
#[derive(Clone, Copy)]
pub(crate) struct Signed<'a> {
    pub minus: bool,
    pub rest: &'a [u8],
}

/// Splits off a `+` or `-`.
pub(crate) fn split_sign(text: &[u8]) -> Signed<'_>
    ensures minus { result.minus ≡ has_minus text.now }
    ensures rest { result.rest.now ≡ unsigned text.now }
{
    match text.split_first() {
        Some((b'-', rest)) => Signed { minus: true, rest },
        Some((b'+', rest)) => Signed { minus: false, rest },
        _ => Signed {
            minus: false,
            rest: text,
        },
    }
}
