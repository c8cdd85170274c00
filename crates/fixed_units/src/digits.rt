// ASCII digits.
ghost use Rattle.std.specs.Prelude.{◌≡◌};
ghost use Rattle.fixed_units.specs.Quantity.{is_digit as is_digit_of};

pub(crate) fn is_digit(byte: u8) -> bool
    ensures { result ≡ is_digit_of byte }
{
    byte.is_ascii_digit()
}
