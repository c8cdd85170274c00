// From the arguments to the number with which the program ends.
ghost use Rattle.std.specs.Prelude.{◌≡◌, OnErr, OnOk, IfErr, IfOk, drop, map, string_bytes};
ghost use Rattle.std.specs.IoError.{error_kind};
ghost use Rattle.std.specs.Vec.Iter.{into_iter_items};
ghost use Rattle.file_desk.specs.FileDesk.{AreKept, file_state};
ghost use Rattle.dta_run.specs.Program.{EndsAfterRun, lost_status, number_without_words};

use crate::arguments::run_arguments;
use commands::Status;
use desk_io::Failed;
use file_desk::{FileDesk, Folder, Stream};
use std::env::Args;
use std::io;
use std::io::ErrorKind;
use std::sync::Wait;
use std::thread::Threads;

// The number with which the program ends where it has no words.
fn number_of_no_words(why: ErrorKind) -> u8
    ensures { result ≡ number_without_words why }
{
    match why {
        ErrorKind::OutOfMemory => Status::Memory.number(),
        _ => 1,
    }
}

// The status of a run, once it is known whether its files are kept.
fn status_of_files(status: Status, kept: Result<(), Failed>) -> Status
    ensures kept { OnOk kept (result ≡ status) }
    ensures lost { OnErr kept (result ≡ lost_status status) }
{
    match (status, kept) {
        (Status::Done, Err(_)) => Status::WriteFault,
        _ => status,
    }
}

/// The whole program: does what the arguments ask for over the files of a desk, of which the first
/// is the program's name, waits until the files are on the disk, and answers the number with which
/// the program ends. That is the number of the run's status; 5 where the run is done and a file
/// isn't kept; and where there are no arguments 6 for want of memory and 1 for a word that isn't
/// text.
pub fn program<R, F, S, W>(rt: &R, arguments: io::Result<Args>, desk: &mut FileDesk<F, S, W>) -> u8
where
    R: AllocGlobal + Threads + Wait + Sync,
    F: Folder + Send,
    F::Opened: Send,
    F::Made: Send,
    S: Stream + Send,
    W: Stream + Send,
    ensures words { IfOk arguments (λ given.
        let state = file_state F.under F.Opened.rest F.made F.Made.holds S.taken W.taken in
        EndsAfterRun (drop 1 (map string_bytes (into_iter_items given)))
        (state desk.old) (state desk.new)
        (AreKept F.Made.holds F.Made.kept desk.new) result) }
    ensures no_words { IfErr arguments (λ why.
        (result ≡ number_without_words (error_kind why)) × (desk.new ≡ desk.old)) }
{
    match arguments {
        Ok(arguments) => {
            let status = run_arguments(rt, arguments, desk);
            status_of_files(status, desk.keep()).number()
        }
        Err(why) => number_of_no_words(why.kind()),
    }
}
