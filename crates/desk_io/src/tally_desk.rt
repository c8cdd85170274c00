// A desk for runs whose outputs are too long to keep.
ghost use Rattle.std.specs.Prelude.{◌≡◌, ◌<◌, ◌≤◌, length, take, min, IsOk, Ok, IfOk, IfSome};
ghost use Rattle.std.specs.Io.KnownBytes.{IsAtEnd};
ghost use Rattle.desk_io.specs.Desk.{left_of};
ghost use Rattle.desk_io.specs.MemDesk.{all_left, with_start, with_times};
ghost use Rattle.desk_io.specs.State.{PutsSome, ReadsSome};
ghost use Rattle.desk_io.specs.TallyDesk.{count_of, counted, no_counts, tally_state};

use crate::desk::{OUTPUTS, TABLES};
use crate::source::Source;
use crate::{Desk, Failed, Output, Table};
use std::marker::Model;

/// A desk that reads six texts from memory, and of what it is given keeps the number of bytes
/// alone. It never fails and takes no memory. It tells what is left, and no bytes that were put.
#[derive(Drop)]
pub struct TallyDesk {
    tables: [Option<Source>; TABLES],
    counts: [u64; OUTPUTS],
}

impl Model for TallyDesk {
    ghost use Rattle.desk_io.specs.TallyDesk.{TallyView};

    ghost Value = { TallyView };

    ghost use Rattle.desk_io.specs.TallyInside.{tally_view};

    ghost view = { tally_view };
}

impl TallyDesk {
    /// A desk with these texts and tables of a start and of link times of zero bytes, to which
    /// nothing is put yet.
    pub fn new(node: Vec<u8>, link: Vec<u8>, movement: Vec<u8>, demand: Vec<u8>) -> Self
        ensures left { result.left ≡ all_left node.items link.items movement.items demand.items }
        ensures counts { result.counts ≡ no_counts }
    {
        TallyDesk {
            tables: [
                Some(Source::new(node)),
                Some(Source::new(link)),
                Some(Source::new(movement)),
                Some(Source::new(demand)),
                None,
                None,
            ],
            counts: [0; OUTPUTS],
        }
    }

    /// Sets the table of a start, of which nothing is read yet.
    pub fn set_start(&mut self, text: Vec<u8>)
        ensures { self.new ≡ record self.old { left = with_start text.items self.old.left } }
    {
        self.tables[Table::Start.number()] = Some(Source::new(text));
    }

    /// Sets the table of link times, of which nothing is read yet.
    pub fn set_times(&mut self, text: Vec<u8>)
        ensures { self.new ≡ record self.old { left = with_times text.items self.old.left } }
    {
        self.tables[Table::Times.number()] = Some(Source::new(text));
    }

    /// How many bytes an output has taken. The count stays at 2^64 - 1 once it is there.
    pub fn count(&self, output: Output) -> u64
        ensures { result ≡ count_of output self.now.counts }
    {
        self.counts[output.number()]
    }
}

impl Desk for TallyDesk {
    ghost state = { tally_state };

    #[tactic(auto, unfolding(crate::specs::Desk::before_left))]
    fn read(&mut self, table: Table, buf: &mut [u8]) -> Result<usize, Failed>
        ensures reads { ReadsSome table buf.new
            (tally_state self.old) (tally_state self.new) result }

        // More than the trait promises: it never fails, fills the buffer where it can, and changes
        // no count.
        ensures never { IsOk result }
        ensures many { IfOk result (λ n. IfSome (left_of table self.old.left) (λ bytes.
            n ≡ min (length bytes) (length buf.new))) }
        ensures counts { self.new.counts ≡ self.old.counts }
    {
        if let Some(text) = &mut self.tables[table.number()] {
            return Ok(text.read(buf, usize::MAX));
        }
        Ok(0)
    }

    #[tactic(auto, unfolding(crate::specs::Desk::grown))]
    fn put(&mut self, output: Output, piece: &[u8]) -> Result<usize, Failed>
        ensures puts { PutsSome output piece.now
            (tally_state self.old) (tally_state self.new) result }

        // More than the trait promises: it takes the whole piece and counts it.
        ensures whole { result ≡ Ok (length piece.now) }
        ensures counts { self.new.counts ≡ counted output (length piece.now) self.old.counts }
    {
        let count = &mut self.counts[output.number()];
        *count = count.saturating_add(piece.len() as u64);
        Ok(piece.len())
    }
}
