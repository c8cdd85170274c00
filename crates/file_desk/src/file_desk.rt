// The desk over the files of a folder and two streams.
ghost use Rattle.std.specs.Prelude.{◌≡◌, ◌≢◌, ℕ, List, [], None, Ok, Some, IfOk, IsErr};
ghost use Rattle.std.specs.Prelude.{OnErr, OnOk, option_copied};
ghost use Rattle.desk_io.specs.Faults.{HasCause};
ghost use Rattle.desk_io.specs.State.{PutsSome, ReadsSome};
ghost use Rattle.file_desk.specs.FileDesk.{AreKept, MakesAtMost, file_state, made_for};
ghost use Rattle.file_desk.specs.FileDesk.{new_desk, slot_of};
ghost use Rattle.file_desk.specs.Names.{output_name, table_file};
ghost use Rattle.file_desk.specs.declared.slots.TableFile.TheVariants as file;

use crate::current_folder::CurrentFolder;
use crate::folder::{Folder, MadeFile, OpenedFile, Stream};
use crate::slots::{TableFile, is_kept, read_file, write_file};
use desk_io::{Desk, Failed, Output, Table};
use std::io;
use std::rt::{Stderr, Stdout};

/// A desk over a folder and two streams. It reads `node.csv`, `link.csv`, `movement.csv`,
/// `demand.csv`, `start.csv` and `times.csv`, and puts to `agent.csv`, `link_performance.csv`,
/// `origin_wait.csv`, `gap.csv`, `skim.csv`, `counts.csv`, `sweep.txt`, a stream for Report and one
/// for Watch. A `movement.csv` that doesn't exist reads as zero bytes; another missing file fails.
/// A file is made, in place of an older one, at its first put of a piece that isn't empty. The desk
/// tells what its folder and its streams tell, and counts each failure.
#[derive(Drop)]
pub struct FileDesk<F: Folder, R, W> {
    folder: F,
    node: TableFile<F::Opened>,
    link: TableFile<F::Opened>,
    movement: TableFile<F::Opened>,
    demand: TableFile<F::Opened>,
    start: TableFile<F::Opened>,
    times: TableFile<F::Opened>,
    agent: Option<F::Made>,
    link_time: Option<F::Made>,
    origin_wait: Option<F::Made>,
    gap: Option<F::Made>,
    skim: Option<F::Made>,
    counts: Option<F::Made>,
    sweep: Option<F::Made>,
    report: R,
    watch: W,
    read_faults: u64,
    put_faults: u64,
}

impl FileDesk<CurrentFolder, Stdout, Stderr> {
    /// A desk over the current folder. Its report goes to standard output and its watch lines to
    /// standard error.
    pub fn here(rt: HostRuntime) -> Self
        ensures { (result.read_faults ≡ 0) × (result.put_faults ≡ 0) }
    {
        FileDesk::over(CurrentFolder::new(rt), rt.stdout(), rt.stderr())
    }
}

impl<F: Folder, R, W> FileDesk<F, R, W> {
    /// A desk over a folder and two streams, of which nothing is opened and nothing made.
    pub fn over(folder: F, report: R, watch: W) -> Self
        ensures { result ≡ new_desk folder report watch }
    {
        FileDesk {
            folder,
            node: TableFile::NotOpened,
            link: TableFile::NotOpened,
            movement: TableFile::NotOpened,
            demand: TableFile::NotOpened,
            start: TableFile::NotOpened,
            times: TableFile::NotOpened,
            agent: None,
            link_time: None,
            origin_wait: None,
            gap: None,
            skim: None,
            counts: None,
            sweep: None,
            report,
            watch,
            read_faults: 0,
            put_faults: 0,
        }
    }

    /// The file that was made for an output, lent. Report and Watch have none.
    pub fn made(&self, output: Output) -> Option<&F::Made>
        ensures { option_copied result ≡ made_for output self.now }
    {
        match output {
            Output::Agent => self.agent.as_ref(),
            Output::LinkTime => self.link_time.as_ref(),
            Output::OriginWait => self.origin_wait.as_ref(),
            Output::Gap => self.gap.as_ref(),
            Output::Skim => self.skim.as_ref(),
            Output::Counts => self.counts.as_ref(),
            Output::Sweep => self.sweep.as_ref(),
            Output::Report | Output::Watch => None,
        }
    }

    /// The stream of Report, lent.
    pub fn report(&self) -> &R
        ensures { result.now ≡ self.now.report }
    {
        &self.report
    }
}

impl<F: Folder, R: Stream, W: Stream> FileDesk<F, R, W> {
    /// Waits until all that was put to files is on the disk (sync). Failed where a file isn't kept,
    /// which counts as a failed put. The two streams aren't waited for.
    pub fn keep(&mut self) -> Result<(), Failed>
        ensures kept { OnOk result (AreKept F.Made.holds F.Made.kept self.new) }
        ensures cause { HasCause self.old.put_faults self.new.put_faults result }
        ensures same { let state = file_state F.under F.Opened.rest F.made F.Made.holds
            R.taken W.taken in state self.new
            ≡ record (state self.old) { put_faults = self.new.put_faults } }
        ensures makes { F.made self.new.folder ≡ F.made self.old.folder }
    {
        let agent = is_kept(&mut self.agent);
        let link_time = is_kept(&mut self.link_time);
        let origin_wait = is_kept(&mut self.origin_wait);
        let gap = is_kept(&mut self.gap);
        let skim = is_kept(&mut self.skim);
        let counts = is_kept(&mut self.counts);
        let sweep = is_kept(&mut self.sweep);
        if agent && link_time && origin_wait && gap && skim && counts && sweep {
            return Ok(());
        }
        self.put_faults = self.put_faults.saturating_add(1);
        Err(Failed)
    }
}

// The answer of a read or a put, counted where it failed.
fn counted(faults: &mut u64, answer: io::Result<usize>) -> Result<usize, Failed>
    ensures done { IfOk answer (λ n. (result ≡ Ok n) × (faults.new ≡ faults.old)) }
    ensures failed { OnErr answer (IsErr result) }
    ensures cause { HasCause faults.old faults.new result }
{
    match answer {
        Ok(count) => Ok(count),
        Err(_) => {
            *faults = faults.saturating_add(1);
            Err(Failed)
        }
    }
}

impl<F: Folder, R: Stream, W: Stream> Desk for FileDesk<F, R, W> {
    ghost state = { file_state F.under F.Opened.rest F.made F.Made.holds R.taken W.taken };

    #[tactic(auto, unfolding(desk_io::specs::Desk::before_left))]
    fn read(&mut self, table: Table, buf: &mut [u8]) -> Result<usize, Failed>
        ensures reads { let state = file_state F.under F.Opened.rest F.made F.Made.holds
            R.taken W.taken in ReadsSome table buf.new (state self.old) (state self.new) result }

        // More than the trait promises: a missing file fails, but for a movement table, and no
        // file is made.
        ensures missing { table ≢ Table.Movement → slot_of table self.old ≡ file.NotOpened
            → F.under self.old.folder (table_file table) ≡ Some None → IsErr result }
        ensures makes { F.made self.new.folder ≡ F.made self.old.folder }
    {
        let folder = &self.folder;
        let faults = &mut self.read_faults;
        match table {
            Table::Node => counted(
                faults,
                read_file(folder, &mut self.node, "node.csv", false, buf),
            ),
            Table::Link => counted(
                faults,
                read_file(folder, &mut self.link, "link.csv", false, buf),
            ),
            Table::Movement => counted(
                faults,
                read_file(folder, &mut self.movement, "movement.csv", true, buf),
            ),
            Table::Demand => counted(
                faults,
                read_file(folder, &mut self.demand, "demand.csv", false, buf),
            ),
            Table::Start => counted(
                faults,
                read_file(folder, &mut self.start, "start.csv", false, buf),
            ),
            Table::Times => counted(
                faults,
                read_file(folder, &mut self.times, "times.csv", false, buf),
            ),
        }
    }

    #[tactic(auto, unfolding(desk_io::specs::Desk::grown))]
    fn put(&mut self, output: Output, piece: &[u8]) -> Result<usize, Failed>
        ensures puts { let state = file_state F.under F.Opened.rest F.made F.Made.holds
            R.taken W.taken in PutsSome output piece.now (state self.old) (state self.new) result }

        // More than the trait promises: no file is made but that of the output, for a piece that
        // isn't empty, and what lies under other names stands.
        ensures makes { MakesAtMost output piece.now
            (F.made self.old.folder) (F.made self.new.folder) }
        ensures stands { (name : List ℕ) → name ≢ output_name output
            → F.under self.new.folder name ≡ F.under self.old.folder name }
        ensures nothing { piece.now ≡ [] → self.new ≡ self.old }
    {
        // Nothing to put, and so no file to make or empty.
        if piece.is_empty() {
            return Ok(0);
        }
        let folder = &mut self.folder;
        let faults = &mut self.put_faults;
        match output {
            Output::Agent => counted(faults, write_file(folder, &mut self.agent, output, piece)),
            Output::LinkTime => counted(
                faults,
                write_file(folder, &mut self.link_time, output, piece),
            ),
            Output::OriginWait => counted(
                faults,
                write_file(folder, &mut self.origin_wait, output, piece),
            ),
            Output::Gap => counted(faults, write_file(folder, &mut self.gap, output, piece)),
            Output::Report => counted(faults, self.report.write(piece)),
            Output::Watch => counted(faults, self.watch.write(piece)),
            Output::Skim => counted(faults, write_file(folder, &mut self.skim, output, piece)),
            Output::Counts => counted(faults, write_file(folder, &mut self.counts, output, piece)),
            Output::Sweep => counted(faults, write_file(folder, &mut self.sweep, output, piece)),
        }
    }
}
