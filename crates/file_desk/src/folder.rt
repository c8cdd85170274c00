// What a desk over files asks of the outside.
ghost use Rattle.std.specs.Prelude.{◌≡◌, ◌≢◌, ℕ, List, IfOk, IfErr, IsErrAnd, OnErr, OnOk};
ghost use Rattle.std.specs.Prelude.{None, Option, Some};
ghost use Rattle.std.specs.IoError.{error_kind};
ghost use Rattle.file_desk.specs.Folders.{IsAbsent, Lies, Names, bytes_of, no_bytes, with_name};
ghost use Rattle.file_desk.specs.Parts.{AddsPart, ReadsPart};

use std::io;
use std::io::ErrorKind;

/// A file that was opened to be read.
pub trait OpenedFile {
    /// The bytes that are left, where they are told.
    ghost rest: { Self → Option (List ℕ) };

    /// Moves the first bytes that are left into the buffer, and answers how many.
    fn read(&mut self, buf: &mut [u8]) -> io::Result<usize>
        ensures { ReadsPart buf.new (rest self.old) (rest self.new) result };
}

/// A stream that takes bytes.
pub trait Stream {
    /// The bytes that it has taken, where they are told.
    ghost taken: { Self → Option (List ℕ) };

    /// Takes a first part of the piece, and answers its length.
    fn write(&mut self, piece: &[u8]) -> io::Result<usize>
        ensures { AddsPart piece.now (taken self.old) (taken self.new) result };
}

/// A file that was made.
pub trait MadeFile {
    /// The bytes that lie under a name, where that is the file's name and its bytes are told.
    ghost holds: { Self → List ℕ → Option (List ℕ) };

    /// Those of them that are on the disk.
    ghost kept: { Self → List ℕ → Option (List ℕ) };

    /// Adds a first part of the piece at the end, and answers its length.
    fn write(&mut self, piece: &[u8]) -> io::Result<usize>
        ensures { (name : List ℕ)
            → AddsPart piece.now (holds self.old name) (holds self.new name) result };

    /// Waits until all bytes are on the disk.
    fn sync(&mut self) -> io::Result<()>
        ensures holds { (name : List ℕ) → holds self.new name ≡ holds self.old name }
        ensures kept { OnOk result ((name : List ℕ) → kept self.new name ≡ holds self.new name) };
}

/// A folder, whose files are opened and made by their names.
pub trait Folder {
    type Opened: OpenedFile + Drop;

    type Made: MadeFile + Drop;

    /// What lies under a name.
    ghost under: { Self → List ℕ → Lies };

    /// The names of the files that were made.
    ghost made: { Self → Names };

    /// Opens the file of this name, to be read from its start. NotFound says that there is none.
    fn open(&self, name: &str) -> io::Result<Self::Opened>
        ensures all { IfOk result (λ file.
            Self.Opened.rest file ≡ bytes_of (under self.now name.now)) }
        ensures found { IfErr result (λ why. error_kind why ≡ ErrorKind.NotFound
            → IsAbsent (under self.now name.now)) }
        ensures absent { under self.now name.now ≡ Some None
            → IsErrAnd result (λ why. error_kind why ≡ ErrorKind.NotFound) };

    /// Makes a file of this name of zero bytes, in place of one that is there.
    fn make(&mut self, name: &str) -> io::Result<Self::Made>
        ensures empty { IfOk result (λ file.
            Self.Made.holds file name.now ≡ no_bytes (made self.old)) }
        ensures made { OnOk result (made self.new ≡ with_name name.now (made self.old)) }
        ensures refused { OnErr result (made self.new ≡ made self.old) }
        ensures others { (other : List ℕ) → other ≢ name.now
            → under self.new other ≡ under self.old other };
}
