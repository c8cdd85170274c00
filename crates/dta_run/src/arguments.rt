// From the arguments of the program to the status with which it ends.
ghost use Rattle.std.specs.Prelude.{drop, map, string_bytes};
ghost use Rattle.std.specs.Vec.Iter.{into_iter_items};
ghost use Rattle.dta_run.specs.Headline.{Headline};
ghost use Rattle.assign_command.specs.Receipts.{silent};

use crate::NoGate;
use crate::top_call::run;
use commands::Status;
use desk_io::Desk;
use dta_words::Words;
use std::env::Args;
use std::sync::Wait;
use std::thread::Threads;

/// Does what the arguments ask for, of which the first is the program's name and the others are
/// the words, with a gate that tells nothing.
pub fn run_arguments<R: AllocGlobal + Threads + Wait + Sync, D: Desk + Send>(
    rt: &R,
    arguments: Args,
    desk: &mut D,
) -> Status
    ensures headline { Headline (drop 1 (map string_bytes (into_iter_items arguments)))
        result (D.state desk.old) (D.state desk.new) silent silent }
{
    match Words::after_name(rt.alloc(), arguments) {
        Ok(words) => run(rt, &words, desk, &mut NoGate),
        Err(_) => Status::Memory,
    }
}
