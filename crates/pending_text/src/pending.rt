// Text on its way out.
ghost use Rattle.std.specs.Prelude.{◌≡◌, ◌≤◌, ◌+◌, ◌++◌, [], length, decimal, OnOk, OnErr};
ghost use Rattle.desk_io.specs.Transfers.{Puts};
ghost use Rattle.pending_text.specs.Sending.{Adds};

use arrayvec::ArrayString;
use desk_io::{Desk, Failed, Output, put_all};
use itoa::Buffer;
use std::marker::Model;

/// The most bytes that go out in one piece.
pub const PIECE: usize = 4096;

/// The most digits of a number of 64 bits.
pub const DIGITS: usize = 20;

/// The most digits of a number of 128 bits, with a sign's place.
pub const WIDE_DIGITS: usize = 40;

/// Text that waits to go out in one large piece. It takes no memory, and a clause sees its bytes.
#[derive(Drop)]
pub struct Pending {
    text: ArrayString<PIECE>,
}

impl Model for Pending {
    ghost use Rattle.std.specs.Prelude.{List, ℕ};

    ghost Value = { List ℕ };

    ghost view = { λ p. p.text.bytes };
}

impl Pending {
    /// No text.
    pub fn new() -> Self
        ensures { result ≡ [] }
    {
        Pending {
            text: ArrayString::new(),
        }
    }

    /// Adds a text last.
    pub fn push(&mut self, text: &str)
        requires { length self.old + length text.now ≤ PIECE }
        ensures { self.new ≡ self.old ++ text.now }
    {
        self.text.push_str(text);
    }

    /// Adds a number last, in decimal.
    pub fn push_number(&mut self, number: u64)
        requires { length self.old + DIGITS ≤ PIECE }
        ensures digits { self.new ≡ self.old ++ decimal number }
        ensures few { length self.new ≤ length self.old + DIGITS }
    {
        let mut buffer = Buffer::new();
        self.text.push_str(buffer.format(number));
    }

    /// Adds a number of 128 bits last, in decimal.
    pub fn push_wide(&mut self, number: u128)
        requires { length self.old + WIDE_DIGITS ≤ PIECE }
        ensures digits { self.new ≡ self.old ++ decimal number }
        ensures few { length self.new ≤ length self.old + WIDE_DIGITS }
    {
        let mut buffer = Buffer::new();
        self.text.push_str(buffer.format(number));
    }

    /// Puts all that is pending. On Failed a first part of it went out.
    pub fn put_out<D: Desk>(&mut self, desk: &mut D, output: Output) -> Result<(), Failed>
        ensures puts { Puts output self.old (D.state desk.old) (D.state desk.new) result }
        ensures none { OnOk result (self.new ≡ []) }
    {
        put_all(desk, output, self.text.as_str().as_bytes())?;
        self.text.clear();
        Ok(())
    }

    /// Puts what is pending where less than so much room is left.
    #[tactic(auto, using(crate::proofs::SendingFacts::rooms))]
    pub fn make_room<D: Desk>(
        &mut self,
        desk: &mut D,
        output: Output,
        room: usize,
    ) -> Result<(), Failed>
        requires { room ≤ PIECE }
        ensures room { OnOk result (length self.new + room ≤ PIECE) }
        ensures adds { Adds output [] self.old self.new
            (D.state desk.old) (D.state desk.new) result }
    {
        if self.text.remaining_capacity() < room {
            self.put_out(desk, output)?;
        }
        Ok(())
    }

    /// Adds a text last, and first puts what is pending where it has no room.
    #[tactic(auto, using(crate::proofs::SendingFacts::pieces))]
    pub fn add<D: Desk>(&mut self, desk: &mut D, output: Output, text: &str) -> Result<(), Failed>
        requires { length text.now ≤ PIECE }
        ensures { Adds output text.now self.old self.new
            (D.state desk.old) (D.state desk.new) result }
    {
        self.make_room(desk, output, text.len())?;
        self.push(text);
        Ok(())
    }
}
