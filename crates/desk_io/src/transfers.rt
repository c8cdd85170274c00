// Whole tables and whole texts over a desk.
ghost use Rattle.std.specs.Prelude.{◌≡◌, ◌≤◌};
ghost use Rattle.desk_io.specs.declared.transfers.ReadRefusal.TheVariants as refusal;
ghost use Rattle.desk_io.specs.Transfers.{Puts, Reads};

use crate::{Desk, Failed, Memory, Output, Table};
use std::alloc::Global;

/// The most bytes of a table that a run reads.
pub const MOST_TABLE_BYTES: u64 = 268_435_456;

/// The most bytes that one read moves.
const PIECE: usize = 4096;

/// Why a table wasn't read.
#[derive(Clone, Copy, Debug, PartialEq, Eq)]
pub enum ReadRefusal {
    /// A read failed.
    Failed,
    /// There were more bytes than the limit.
    TooLong,
    /// There was no memory.
    Memory,
}

impl From<Failed> for ReadRefusal {
    ghost from_gives = { λ _ e. e ≡ refusal.Failed };

    fn from(_: Failed) -> Self {
        ReadRefusal::Failed
    }
}

impl From<Memory> for ReadRefusal {
    ghost from_gives = { λ _ e. e ≡ refusal.Memory };

    fn from(_: Memory) -> Self {
        ReadRefusal::Memory
    }
}

/// Reads a table to its end, at most `limit` bytes. After a refusal some of its bytes have been
/// read.
#[tactic(auto, using(crate::proofs::DeskFacts::desk_facts))]
pub fn read_table<D: Desk>(
    alloc: Global,
    desk: &mut D,
    table: Table,
    limit: u64,
) -> Result<Vec<u8>, ReadRefusal>
    ensures { Reads table limit (D.state desk.old) (D.state desk.new) result }
{
    let mut bytes = Vec::new(alloc);
    let mut buf = [0; PIECE];
    loop {
        let count = desk.read(table, &mut buf)?;
        if count == 0 {
            return Ok(bytes);
        }
        if count as u64 > limit - bytes.len() as u64 {
            return Err(ReadRefusal::TooLong);
        }
        bytes.extend_from_slice(&buf[..count])?;
    }
}

/// Puts all of the bytes. On Failed a first part of them went out. It takes no memory.
#[tactic(auto, using(crate::proofs::DeskFacts::desk_facts))]
pub fn put_all<D: Desk>(desk: &mut D, output: Output, bytes: &[u8]) -> Result<(), Failed>
    ensures { Puts output bytes.now (D.state desk.old) (D.state desk.new) result }
{
    let mut at = 0;
    while at < bytes.len() {
        at += desk.put(output, &bytes[at..])?;
    }
    Ok(())
}
