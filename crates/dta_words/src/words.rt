// The words of a command line.
ghost use Rattle.std.specs.Prelude.{◌≡◌, ◌<◌, ◌++◌, ◌∷◌, [], length, IfOk, OnOk, OnErr, Some};
ghost use Rattle.std.specs.Prelude.{drop, map, slice_get, string_bytes};
ghost use Rattle.std.specs.Vec.Iter.{into_iter_items};

use desk_io::Memory;
use std::alloc::Global;
use std::env::Args;
use std::marker::Model;

/// The words of a command line, after the program's name. A clause sees the list of their bytes.
#[derive(Drop)]
pub struct Words {
    alloc: Global,
    items: Vec<String>,
}

impl Model for Words {
    ghost use Rattle.std.specs.Prelude.{List, ℕ};

    ghost Value = { List (List ℕ) };

    ghost use Rattle.dta_words.specs.WordsInside.{words_view};

    ghost view = { words_view };
}

impl Words {
    /// No words.
    pub fn new(alloc: Global) -> Self
        ensures { result ≡ [] }
    {
        Words {
            alloc,
            items: Vec::new(alloc),
        }
    }

    /// The words behind the program's name, which is the first of its arguments.
    pub fn after_name(alloc: Global, arguments: Args) -> Result<Self, Memory>
        ensures { IfOk result (λ words.
            words ≡ drop 1 (map string_bytes (into_iter_items arguments))) }
    {
        let mut words = Words::new(alloc);
        let mut rest = arguments;
        if rest.next().is_none() {
            return Ok(words);
        }
        while let Some(word) = rest.next() {
            words.push(word.as_str())?;
        }
        Ok(words)
    }

    /// Adds a word last. Where there is no memory nothing changes.
    pub fn push(&mut self, word: &str) -> Result<(), Memory>
        ensures ok { OnOk result (self.new ≡ self.old ++ word.now ∷ []) }
        ensures err { OnErr result (self.new ≡ self.old) }
    {
        let text = String::from_str(self.alloc, word)?;
        self.items.push(text)?;
        Ok(())
    }

    /// How many words there are.
    pub fn len(&self) -> usize
        ensures { result ≡ length self.now }
    {
        self.items.len()
    }

    /// The word at a place, counted from 0.
    pub fn get(&self, place: usize) -> &str
        requires { place < length self.now }
        ensures { slice_get self.now place ≡ Some result.now }
    {
        self.items[place].as_str()
    }

    /// The words as a slice.
    pub(crate) fn as_slice(&self) -> &[String]
        ensures { map string_bytes result.now ≡ self.now }
    {
        self.items.as_slice()
    }
}
