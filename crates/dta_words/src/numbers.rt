// Whole numbers in words.
ghost use Rattle.std.specs.Prelude.{◌≡◌};
ghost use Rattle.std.specs.List.{list_all};
ghost use Rattle.std.specs.Char.{is_ascii_digit};
ghost use Rattle.dta_words.specs.Numbers.{is_number as is_number_of};
ghost use Rattle.dta_words.specs.Numbers.{number_between as number_between_of};
ghost use Rattle.dta_words.specs.Numbers.{number_of as number_written};

/// A number has at most as many digits.
pub(crate) const MOST_DIGITS: usize = 9;

/// Whether all bytes are decimal digits.
fn all_digits(bytes: &[u8]) -> bool
    ensures { result ≡ list_all is_ascii_digit bytes.now }
{
    bytes.iter().all(|byte| byte.is_ascii_digit())
}

/// Whether a word is one to nine digits and nothing else.
fn is_number(text: &str) -> bool
    ensures { result ≡ is_number_of text.now }
{
    let bytes = text.as_bytes();
    !bytes.is_empty() && bytes.len() <= MOST_DIGITS && all_digits(bytes)
}

/// The number that a word writes.
#[tactic(auto, using(crate::proofs::NumberFacts::parsed))]
pub(crate) fn number_of(text: &str) -> Option<u32>
    ensures { result ≡ number_written text.now }
{
    if is_number(text) {
        text.parse::<u32>().ok()
    } else {
        None
    }
}

/// The number that a word writes, if it is within the bounds.
pub(crate) fn number_between(least: u32, most: u32, text: &str) -> Option<u32>
    ensures { result ≡ number_between_of least most text.now }
{
    let number = number_of(text)?;
    if least <= number && number <= most {
        Some(number)
    } else {
        None
    }
}
