ghost use Rattle.std.specs.Prelude.{◌≡◌, ◌<◌, ◌≤◌, ◌+◌, ◌++◌, ◌∷◌, [], length, take, min};
ghost use Rattle.std.specs.Prelude.{if◌then◌else◌};
ghost use Rattle.std.specs.Prelude.{IsTrue, IsErr, is_err, IfOk, IfSome, OnOk, OnErr, None, Some};
ghost use Rattle.std.specs.Io.KnownBytes.{IsAtEnd};
ghost use Rattle.desk_io.specs.Desk.{left_of, nothing_taken, taken_of};
ghost use Rattle.desk_io.specs.Faults.{last_count};
ghost use Rattle.desk_io.specs.MemDesk.{is_listed, number_after, all_left, desk_state};
ghost use Rattle.desk_io.specs.MemDesk.{with_start, with_times};
ghost use Rattle.desk_io.specs.State.{PutsSome, ReadsSome};

use crate::desk::{OUTPUTS, TABLES};
use crate::source::Source;
use crate::{Desk, Failed, Memory, Output, Table};
use std::alloc::Global;
use std::marker::Model;
use std::mem;

/// A desk in memory: six texts to read and nine outputs that grow. It tells all, and calls can be
/// listed to fail.
#[derive(Drop)]
pub struct MemDesk {
    tables: [Source; TABLES],
    outputs: [Vec<u8>; OUTPUTS],
    failing_reads: Vec<u64>,
    failing_puts: Vec<u64>,
    next_read: Option<u64>,
    next_put: Option<u64>,
    most: usize,
    read_faults: u64,
    put_faults: u64,
    starved: u64,
}

impl Model for MemDesk {
    ghost use Rattle.desk_io.specs.MemDesk.{MemView};

    ghost Value = { MemView };

    ghost use Rattle.desk_io.specs.MemInside.{mem_view, CanMove};

    ghost view = { mem_view };

    ghost invariant = { CanMove };
}

impl MemDesk {
    /// A desk with these texts and tables of a start and of link times of zero bytes, of which no
    /// call is listed to fail and no call has a bound on its bytes.
    pub fn new(
        alloc: Global,
        node: Vec<u8>,
        link: Vec<u8>,
        movement: Vec<u8>,
        demand: Vec<u8>,
    ) -> Self
        ensures left { result.left ≡ all_left node.items link.items movement.items demand.items }
        ensures taken { result.taken ≡ nothing_taken }
        ensures faults { (result.read_faults ≡ 0) × (result.put_faults ≡ 0) × (result.starved ≡ 0) }
        ensures first { (result.next_read ≡ Some 1) × (result.next_put ≡ Some 1) }
        ensures listed { (result.failing_reads ≡ []) × (result.failing_puts ≡ []) }
        ensures most { result.most ≡ usize.MAX }
    {
        MemDesk {
            tables: [
                Source::new(node),
                Source::new(link),
                Source::new(movement),
                Source::new(demand),
                Source::new(Vec::new(alloc)),
                Source::new(Vec::new(alloc)),
            ],
            outputs: [
                Vec::new(alloc),
                Vec::new(alloc),
                Vec::new(alloc),
                Vec::new(alloc),
                Vec::new(alloc),
                Vec::new(alloc),
                Vec::new(alloc),
                Vec::new(alloc),
                Vec::new(alloc),
            ],
            failing_reads: Vec::new(alloc),
            failing_puts: Vec::new(alloc),
            next_read: Some(1),
            next_put: Some(1),
            most: usize::MAX,
            read_faults: 0,
            put_faults: 0,
            starved: 0,
        }
    }

    /// Sets the table of a start, of which nothing is read yet.
    pub fn set_start(&mut self, text: Vec<u8>)
        ensures { self.new ≡ record self.old { left = with_start text.items self.old.left } }
    {
        self.tables[Table::Start.number()] = Source::new(text);
    }

    /// Sets the table of link times, of which nothing is read yet.
    pub fn set_times(&mut self, text: Vec<u8>)
        ensures { self.new ≡ record self.old { left = with_times text.items self.old.left } }
    {
        self.tables[Table::Times.number()] = Source::new(text);
    }

    /// What an output has taken.
    pub fn taken(&self, output: Output) -> &[u8]
        ensures { taken_of output self.now.taken ≡ Some result.now }
    {
        &self.outputs[output.number()]
    }

    /// What an output has taken, in place of the desk. It takes no memory.
    pub fn into_taken(mut self, alloc: Global, output: Output) -> Vec<u8>
        ensures { taken_of output self.taken ≡ Some result.items }
    {
        mem::replace(&mut self.outputs[output.number()], Vec::new(alloc))
    }

    /// How many reads failed.
    pub fn read_faults(&self) -> u64
        ensures { result ≡ self.now.read_faults }
    {
        self.read_faults
    }

    /// How many puts failed.
    pub fn put_faults(&self) -> u64
        ensures { result ≡ self.now.put_faults }
    {
        self.put_faults
    }

    /// How many puts found no memory.
    pub fn starved(&self) -> u64
        ensures { result ≡ self.now.starved }
    {
        self.starved
    }

    /// Lists a read that fails. Reads are counted from 1 over all tables.
    pub fn fail_read(&mut self, call: u64) -> Result<(), Memory>
        ensures ok { OnOk result (self.new ≡ record self.old {
          failing_reads = self.old.failing_reads ++ call ∷ [];
        }) }
        ensures err { OnErr result (self.new ≡ self.old) }
    {
        self.failing_reads.push(call)?;
        Ok(())
    }

    /// Lists a put that fails. Puts are counted from 1 over all outputs.
    pub fn fail_put(&mut self, call: u64) -> Result<(), Memory>
        ensures ok { OnOk result (self.new ≡ record self.old {
          failing_puts = self.old.failing_puts ++ call ∷ [];
        }) }
        ensures err { OnErr result (self.new ≡ self.old) }
    {
        self.failing_puts.push(call)?;
        Ok(())
    }

    /// Sets the most bytes that one call moves.
    pub fn set_most(&mut self, most: usize)
        requires { 0 < most }
        ensures { self.new ≡ record self.old { most = most } }
    {
        self.most = most;
    }
}

// Whether a call is listed to fail.
fn listed(calls: &[u64], number: Option<u64>) -> bool
    ensures { result ≡ is_listed calls.now number }
{
    match number {
        None => false,
        Some(number) => calls.contains(&number),
    }
}

// The number of the call after this one.
fn next_number(number: Option<u64>) -> Option<u64>
    ensures { result ≡ number_after number }
{
    match number {
        None => None,
        Some(number) => number.checked_add(1),
    }
}

impl Desk for MemDesk {
    ghost state = { desk_state };

    #[tactic(auto, unfolding(crate::specs::Desk::before_left))]
    fn read(&mut self, table: Table, buf: &mut [u8]) -> Result<usize, Failed>
        ensures reads { ReadsSome table buf.new (desk_state self.old) (desk_state self.new) result }

        // More than the trait promises: when a read fails, how much it moves, and what else
        // changes.
        ensures fails { is_err result ≡ is_listed self.old.failing_reads self.old.next_read }
        ensures many { IfOk result (λ n. IfSome (left_of table self.old.left) (λ bytes.
            n ≡ min (min (length bytes) (length buf.new)) self.old.most)) }
        ensures moves { OnOk result (self.new ≡ record self.old {
          left = self.new.left;
          next_read = number_after self.old.next_read;
        }) }
        ensures counts { OnErr result (self.new ≡ record self.old {
          read_faults = min (self.old.read_faults + 1) last_count;
          next_read = number_after self.old.next_read;
        }) }
    {
        let number = self.next_read;
        self.next_read = next_number(number);
        if listed(&self.failing_reads, number) {
            self.read_faults = self.read_faults.saturating_add(1);
            return Err(Failed);
        }
        Ok(self.tables[table.number()].read(buf, self.most))
    }

    #[tactic(auto, unfolding(crate::specs::Desk::grown))]
    fn put(&mut self, output: Output, piece: &[u8]) -> Result<usize, Failed>
        ensures puts { PutsSome output piece.now
            (desk_state self.old) (desk_state self.new) result }

        // More than the trait promises: when a put fails, how much it moves, and what else
        // changes.
        ensures fails { IsTrue (is_listed self.old.failing_puts self.old.next_put) → IsErr result }
        ensures many { IfOk result (λ n. n ≡ min (length piece.now) self.old.most) }
        ensures moves { OnOk result (self.new ≡ record self.old {
          taken = self.new.taken;
          next_put = number_after self.old.next_put;
        }) }
        ensures counts { OnErr result (self.new ≡ record self.old {
          put_faults = min (self.old.put_faults + 1) last_count;
          next_put = number_after self.old.next_put;
          starved = self.new.starved;
        }) }
        ensures why { OnErr result (self.new.starved ≡ (
            if is_listed self.old.failing_puts self.old.next_put then self.old.starved
            else min (self.old.starved + 1) last_count)) }
    {
        let number = self.next_put;
        self.next_put = next_number(number);
        if listed(&self.failing_puts, number) {
            self.put_faults = self.put_faults.saturating_add(1);
            return Err(Failed);
        }
        let count = piece.len().min(self.most);
        match self.outputs[output.number()].extend_from_slice(&piece[..count]) {
            Ok(()) => Ok(count),
            Err(_) => {
                self.starved = self.starved.saturating_add(1);
                self.put_faults = self.put_faults.saturating_add(1);
                Err(Failed)
            }
        }
    }
}
