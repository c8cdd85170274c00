// Texts while they are made.
ghost use Rattle.std.specs.Prelude.{◌≡◌, ◌++◌, [], decimal, OnOk};

use desk_io::Text;
use itoa::Buffer;
use std::alloc::{AllocError, Global};
use std::marker::Model;

/// A text while it is made.
#[derive(Drop)]
pub(crate) struct Draft {
    bytes: Vec<u8>,
}

impl Model for Draft {
    ghost use Rattle.std.specs.Prelude.{List, ℕ};

    ghost Value = { List ℕ };

    ghost view = { λ d. d.bytes.items };
}

impl Draft {
    /// No text.
    pub(crate) fn new(alloc: Global) -> Self
        ensures { result ≡ [] }
    {
        Draft {
            bytes: Vec::new(alloc),
        }
    }

    /// Adds bytes last.
    pub(crate) fn push(&mut self, bytes: &[u8]) -> Result<(), AllocError>
        ensures { OnOk result (self.new ≡ self.old ++ bytes.now) }
    {
        self.bytes.extend_from_slice(bytes)
    }

    /// Adds a number last, in decimal.
    pub(crate) fn push_number(&mut self, number: u64) -> Result<(), AllocError>
        ensures { OnOk result (self.new ≡ self.old ++ decimal number) }
    {
        let mut buffer = Buffer::new();
        self.bytes
            .extend_from_slice(buffer.format(number).as_bytes())
    }

    /// The text, which is made.
    pub(crate) fn finish(self) -> Text
        ensures { result ≡ self }
    {
        Text::of(self.bytes)
    }
}
