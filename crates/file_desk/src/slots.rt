// The files of a desk: opened at the first read, made at the first put.
ghost use Rattle.std.specs.Prelude.{◌≡◌, ◌⊎◌, ◌≢◌, ℕ, List, IsErr, IsNone, IsTrue};
ghost use Rattle.std.specs.Prelude.{None, Some, false};
ghost use Rattle.file_desk.specs.Folders.{Names, SameTables, no_bytes, with_name};
ghost use Rattle.file_desk.specs.Names.{output_name};
ghost use Rattle.file_desk.specs.Parts.{AddsPart, ReadsPart};
ghost use Rattle.file_desk.specs.Slots.{IsKept, left_in, taken_in};
ghost use Rattle.file_desk.specs.declared.slots.TableFile.TheVariants as table;

use crate::folder::{Folder, MadeFile, OpenedFile};
use desk_io::Output;
use std::io;
use std::io::ErrorKind;

/// The file of a table.
#[derive(Drop)]
pub(crate) enum TableFile<O> {
    NotOpened,
    Absent,
    Opened(O),
}

/// Reads from the file of a table, which the first read opens.
pub(crate) fn read_file<F: Folder>(
    folder: &F,
    file: &mut TableFile<F::Opened>,
    name: &str,
    may_be_absent: bool,
    buf: &mut [u8],
) -> io::Result<usize>
    ensures reads { let lies = F.under folder.now name.now in ReadsPart buf.new
        (left_in F.Opened.rest lies file.old) (left_in F.Opened.rest lies file.new) result }
    ensures missing { may_be_absent ≡ false → file.old ≡ table.NotOpened
        → F.under folder.now name.now ≡ Some None → IsErr result }
{
    if let TableFile::NotOpened = file {
        *file = match folder.open(name) {
            Ok(opened) => TableFile::Opened(opened),
            Err(why) if may_be_absent && why.kind() == ErrorKind::NotFound => TableFile::Absent,
            Err(why) => return Err(why),
        };
    }
    match file {
        TableFile::Opened(opened) => opened.read(buf),
        _ => Ok(0),
    }
}

/// The name of an output's file.
fn name_of(output: Output) -> &'static str
    ensures { result.now ≡ output_name output }
{
    match output {
        Output::Agent => "agent.csv",
        Output::LinkTime => "link_performance.csv",
        Output::OriginWait => "origin_wait.csv",
        Output::Gap => "gap.csv",
        Output::Skim => "skim.csv",
        Output::Counts => "counts.csv",
        Output::Sweep => "sweep.txt",
        Output::Report | Output::Watch => "",
    }
}

/// Adds to the file of an output, which the first put makes.
#[tactic(auto, using(crate::proofs::FolderFacts::folder_facts))]
pub(crate) fn write_file<F: Folder>(
    folder: &mut F,
    file: &mut Option<F::Made>,
    output: Output,
    piece: &[u8],
) -> io::Result<usize>
    ensures adds { AddsPart piece.now
        (taken_in F.Made.holds (F.made folder.old) (output_name output) file.old)
        (taken_in F.Made.holds (F.made folder.new) (output_name output) file.new) result }
    ensures told { no_bytes (F.made folder.new) ≡ no_bytes (F.made folder.old) }
    ensures makes { (F.made folder.new ≡ F.made folder.old)
        ⊎ (F.made folder.new ≡ with_name (output_name output) (F.made folder.old)) }
    ensures others { (other : List ℕ) → other ≢ output_name output
        → F.under folder.new other ≡ F.under folder.old other }
    ensures tables { SameTables (F.under folder.old) (F.under folder.new) }
{
    match file {
        Some(made) => made.write(piece),
        None => {
            let mut made = folder.make(name_of(output))?;
            let answer = made.write(piece);
            *file = Some(made);
            answer
        }
    }
}

/// Waits until all bytes of a file are on the disk, where it was made.
pub(crate) fn is_kept<M: MadeFile>(file: &mut Option<M>) -> bool
    ensures same { (made : Names) (name : List ℕ)
        → taken_in M.holds made name file.new ≡ taken_in M.holds made name file.old }
    ensures kept { IsTrue result → IsKept M.holds M.kept file.new }
{
    match file {
        None => true,
        Some(made) => made.sync().is_ok(),
    }
}
