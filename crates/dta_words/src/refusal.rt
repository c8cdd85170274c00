// Why words have no settings.
ghost use Rattle.std.specs.Prelude.{◌≡◌};
ghost use Rattle.dta_words.specs.declared.refusal.WordsRefusal.TheVariants as refusal;

use desk_io::Memory;

/// Why words have no settings.
#[derive(Clone, Copy, Debug, PartialEq, Eq)]
pub enum WordsRefusal {
    /// The words aren't in the grammar.
    Usage,
    /// Memory is wanting.
    Memory,
}

impl From<Memory> for WordsRefusal {
    ghost from_gives = { λ _ e. e ≡ refusal.Memory };

    fn from(_error: Memory) -> WordsRefusal {
        WordsRefusal::Memory
    }
}
