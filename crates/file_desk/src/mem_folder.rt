// A folder in memory, and a stream in memory, which tell all.
ghost use Rattle.std.specs.Prelude.{◌≡◌, [], Some, OnErr, OnOk};
ghost use Rattle.std.specs.BTreeMap.{get_by_text};
ghost use Rattle.file_desk.specs.MemFolder.{held_under, lies_among};

use crate::folder::{Folder, MadeFile, OpenedFile, Stream};
use std::alloc::Global;
use std::collections::{BTreeMap, VecDeque};
use std::io;
use std::io::{ErrorKind, Read};

/// A folder in memory.
#[derive(Drop)]
pub struct MemFolder {
    alloc: Global,
    files: BTreeMap<String, Vec<u8>>,
    made: Vec<Vec<u8>>,
}

/// A file in memory that is read.
#[derive(Drop)]
pub struct MemOpened {
    rest: VecDeque<u8>,
}

/// A file in memory that was made, of which a first part is kept.
#[derive(Drop)]
pub struct MemMade {
    name: Vec<u8>,
    bytes: Vec<u8>,
    kept: usize,
}

impl MemFolder {
    /// A folder with these files by their names, in which none was made.
    pub fn new(alloc: Global, files: BTreeMap<String, Vec<u8>>) -> Self
        ensures files { result.files ≡ files }
        ensures made { result.made.items ≡ [] }
    {
        MemFolder {
            alloc,
            files,
            made: Vec::new(alloc),
        }
    }
}

impl MemMade {
    /// The bytes that it holds.
    pub fn bytes(&self) -> &[u8]
        ensures { result.now ≡ self.now.bytes.items }
    {
        &self.bytes
    }
}

impl Folder for MemFolder {
    type Opened = MemOpened;

    type Made = MemMade;

    ghost use Rattle.std.specs.Prelude.{map};

    ghost under = { λ f name. lies_among f.files name };

    ghost made = { λ f. Some (map (λ name. name.items) f.made.items) };

    fn open(&self, name: &str) -> io::Result<MemOpened> {
        match self.files.get(name) {
            Some(bytes) => match Vec::from_slice(self.alloc, bytes) {
                Ok(bytes) => Ok(MemOpened {
                    rest: VecDeque::from(bytes),
                }),
                Err(_) => Err(io::Error::from(ErrorKind::OutOfMemory)),
            },
            None => Err(io::Error::from(ErrorKind::NotFound)),
        }
    }

    fn make(&mut self, name: &str) -> io::Result<MemMade> {
        let made = MemMade {
            name: Vec::from_slice(self.alloc, name.as_bytes())?,
            bytes: Vec::new(self.alloc),
            kept: 0,
        };
        self.made
            .push(Vec::from_slice(self.alloc, name.as_bytes())?)?;
        Ok(made)
    }
}

impl OpenedFile for MemOpened {
    ghost rest = { λ f. Some f.rest.items };

    fn read(&mut self, buf: &mut [u8]) -> io::Result<usize> {
        self.rest.read(buf)
    }
}

impl MadeFile for MemMade {
    ghost use Rattle.std.specs.Prelude.{take};

    ghost holds = { λ f name. held_under f.name.items name f.bytes.items };

    ghost kept = { λ f name. held_under f.name.items name (take f.kept f.bytes.items) };

    fn write(&mut self, piece: &[u8]) -> io::Result<usize> {
        self.bytes.extend_from_slice(piece)?;
        Ok(piece.len())
    }

    fn sync(&mut self) -> io::Result<()> {
        self.kept = self.bytes.len();
        Ok(())
    }
}

impl Stream for Vec<u8> {
    ghost taken = { λ bytes. Some bytes.items };

    fn write(&mut self, piece: &[u8]) -> io::Result<usize> {
        self.extend_from_slice(piece)?;
        Ok(piece.len())
    }
}
