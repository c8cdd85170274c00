// The files of the current folder, standard output and standard error: what no clause tells.
ghost use Rattle.std.specs.Prelude.{◌<◌, ◌≤◌, length, IfOk, None};

use crate::folder::{Folder, MadeFile, OpenedFile, Stream};
use std::fs::File;
use std::io::{ErrorKind, Read, Write};
use std::rt::{Stderr, Stdout};
use std::{fs, io};

// How often a call is tried that a signal interrupts.
const TRIES: u32 = 1_000_000;

/// The folder in which the program runs.
#[derive(Drop)]
pub struct CurrentFolder {
    rt: HostRuntime,
}

impl CurrentFolder {
    pub(crate) fn new(rt: HostRuntime) -> Self {
        CurrentFolder { rt }
    }
}

impl Folder for CurrentFolder {
    type Opened = File;

    type Made = File;

    ghost under = { λ _ _. None };

    ghost made = { λ _. None };

    fn open(&self, name: &str) -> io::Result<File> {
        fs::open(&self.rt, name)
    }

    fn make(&mut self, name: &str) -> io::Result<File> {
        fs::create(&self.rt, name)
    }
}

impl OpenedFile for File {
    ghost rest = { λ _. None };

    fn read(&mut self, buf: &mut [u8]) -> io::Result<usize> {
        for _ in 0..TRIES {
            match Read::read(self, buf) {
                Err(why) if why.kind() == ErrorKind::Interrupted => {}
                answer => return answer,
            }
        }
        Err(io::Error::from(ErrorKind::Interrupted))
    }
}

impl MadeFile for File {
    ghost holds = { λ _ _. None };

    ghost kept = { λ _ _. None };

    fn write(&mut self, piece: &[u8]) -> io::Result<usize> {
        write_again(self, piece)
    }

    // What knows no sync, as a device, keeps no bytes back.
    fn sync(&mut self) -> io::Result<()> {
        match self.sync_all() {
            Err(why) if knows_no_sync(why.kind()) => Ok(()),
            answer => answer,
        }
    }
}

impl Stream for Stdout {
    ghost taken = { λ _. None };

    fn write(&mut self, piece: &[u8]) -> io::Result<usize> {
        write_again(self, piece)
    }
}

impl Stream for Stderr {
    ghost taken = { λ _. None };

    fn write(&mut self, piece: &[u8]) -> io::Result<usize> {
        write_again(self, piece)
    }
}

// Writes a first part of the piece, also where signals interrupt it. What takes nothing of a piece
// has failed: the caller would put the piece for ever.
fn write_again<W: Write>(to: &mut W, piece: &[u8]) -> io::Result<usize>
    ensures count { IfOk result (λ n. n ≤ length piece.now) }
    ensures some { IfOk result (λ n. 0 < length piece.now → 0 < n) }
{
    for _ in 0..TRIES {
        match to.write(piece) {
            Ok(0) if !piece.is_empty() => return Err(io::Error::from(ErrorKind::WriteZero)),
            Err(why) if why.kind() == ErrorKind::Interrupted => {}
            answer => return answer,
        }
    }
    Err(io::Error::from(ErrorKind::Interrupted))
}

// Whether a sync that ends so is one that the system doesn't know for this file.
fn knows_no_sync(why: ErrorKind) -> bool {
    matches!(
        why,
        ErrorKind::InvalidInput | ErrorKind::ReadOnlyFilesystem | ErrorKind::Unsupported
    )
}
