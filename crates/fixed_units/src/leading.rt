// The leading digits of a number, which are all that its value or its refusal needs.
ghost use Rattle.std.specs.Prelude.{◌≡◌, ◌≤◌, ◌<◌, ◌+◌, ◌*◌, ◌^◌, ◌++◌, ◌==◌, ℕ, true, false};
ghost use Rattle.std.specs.Prelude.{length};
ghost use Rattle.std.specs.List.{list_all};
ghost use Rattle.fixed_units.specs.Quantity.{is_digit as is_digit_of, number};
ghost use Rattle.fixed_units.specs.Reading.{IsLeading, begins_with};

use crate::digits::is_digit;

/// Digits are dropped once those before them write as much as this: a number with one digit more
/// is above every range.
pub(crate) const ENOUGH: u64 = 1_000_000_000_000_000_000;

/// What the first digits of a number write, and how many digits after them were dropped.
#[derive(Clone, Copy)]
pub(crate) struct Leading {
    pub value: u64,
    pub dropped: usize,
}

impl Leading {
    /// Of no digits.
    pub fn none() -> Self
        ensures leading { IsLeading 0 result }
        ensures dropped { result.dropped ≡ 0 }
    {
        Leading {
            value: 0,
            dropped: 0,
        }
    }

    /// Whether the number is 0.
    pub fn is_zero(self) -> bool
        ensures { (n : ℕ) → IsLeading n self → result ≡ (n == 0) }
    {
        self.value == 0
    }

    // With one more digit.
    #[tactic(auto, using(crate::proofs::Leads::leads))]
    fn followed_by(self, digit: u8) -> Self
        requires digit { digit ≤ 9 }
        requires room { self.dropped + 1 < 2 ^ 64 }
        ensures leading { (n : ℕ) → IsLeading n self → IsLeading (10 * n + digit) result }
        ensures dropped { result.dropped ≤ self.dropped + 1 }
    {
        if self.value < ENOUGH {
            Leading {
                value: 10 * self.value + u64::from(digit),
                dropped: 0,
            }
        } else {
            Leading {
                value: self.value,
                dropped: self.dropped + 1,
            }
        }
    }
}

/// The digits at the front of a text, and what stands after them.
#[derive(Clone, Copy)]
pub(crate) struct Run<'a> {
    pub digits: &'a [u8],
    pub rest: &'a [u8],
    pub leading: Leading,
}

/// Walks the digits at the front of a text, which go on after those that were walked before.
#[tactic(auto, using(crate::proofs::Leads::leads))]
pub(crate) fn walk(before: Leading, text: &[u8]) -> Run<'_>
    requires { before.dropped < 2 ^ 63 }
    ensures joined { text.now ≡ result.digits.now ++ result.rest.now }
    ensures digits { list_all is_digit_of result.digits.now ≡ true }
    ensures no_digit { begins_with is_digit_of result.rest.now ≡ false }
    ensures leading { (n : ℕ) → IsLeading n before
        → IsLeading (n * 10 ^ length result.digits.now + number result.digits.now) result.leading }
    ensures dropped { result.leading.dropped ≤ before.dropped + length result.digits.now }
{
    let mut leading = before;
    'each: for (place, byte) in text.iter().enumerate() {
        if !is_digit(*byte) {
            return Run {
                digits: &text[..place],
                rest: &text[place..],
                leading,
            };
        }
        leading = leading.followed_by(*byte - b'0');
    }
    Run {
        digits: text,
        rest: &[],
        leading,
    }
}
