// A case over the files of the folder in which this program runs.
use crate::difference::{Difference, Unread};
use crate::folder::Folder;
use crate::runs::{status_wanted, text_of_words};
use dta_run::program;
use file_desk::FileDesk;
use std::env::Args;
use std::fs;
use std::os::unix::fs::symlink;
use std::rt::Files;
use std::sync::Wait;
use std::thread::Threads;

const TABLES: [&str; 6] = [
    "node.csv",
    "link.csv",
    "movement.csv",
    "demand.csv",
    "start.csv",
    "times.csv",
];

// The file of each output, with that of what is wanted of it.
const OUTPUTS: [(&str, &str); 7] = [
    ("agent.csv", "expected/agent.csv"),
    ("link_performance.csv", "expected/link_performance.csv"),
    ("origin_wait.csv", "expected/origin_wait.csv"),
    ("gap.csv", "expected/gap.csv"),
    ("skim.csv", "expected/skim.csv"),
    ("counts.csv", "expected/counts.csv"),
    ("sweep.txt", "expected/sweep.txt"),
];

// What a file of an output has before a run, and after it where nothing is put.
const OLDER: &[u8] = b"an older text\n";

// The files that name a table that can't be opened, and an output that can't be made.
const UNREAD: &str = "unread";

const UNWRITTEN: &str = "unwritten";

/// What the run of a case over files gives that isn't as it is wanted. Its report goes to standard
/// output. Tables stand as they are, and so do older texts where nothing is put.
pub(crate) fn differences_of_files<R: Files + AllocGlobal + Threads + Wait + Sync>(
    rt: &R,
    host: HostRuntime,
    folder: &Folder<'_, R>,
) -> Result<Vec<Difference>, Unread> {
    lay_tables(rt, folder)?;
    lay_outputs(rt, folder)?;
    let given = number_of(rt, host, arguments(rt, folder)?);
    let wanted = status_wanted(folder)?;
    let mut found = Vec::new(rt.alloc());
    if given != wanted {
        found.push(Difference::Status { given, wanted })?;
    }
    for table in TABLES {
        if !has_file(rt, table, folder.find(table)?) {
            found.push(Difference::Table(table))?;
        }
        clear(rt, table);
    }
    for (file, expected) in OUTPUTS {
        if !has_file(rt, file, folder.find(expected)?) {
            found.push(Difference::Output(expected))?;
        }
        clear(rt, file);
    }
    Ok(found)
}

// Takes away what lies under a name.
fn clear<R: Files>(rt: &R, name: &str) {
    if fs::remove_file(rt, name).is_err() {
        let _ = fs::remove_dir(rt, name);
    }
}

// Lays the tables of a case, and no other one. A table that can't be opened is a link to itself.
fn lay_tables<R: Files + AllocGlobal>(rt: &R, folder: &Folder<'_, R>) -> Result<(), Unread> {
    let unread = folder.bytes(UNREAD)?;
    for table in TABLES {
        if is_named(&unread, table) {
            symlink(rt, table, table).map_err(|_| Unread::File(table))?;
        } else if let Some(bytes) = folder.find(table)? {
            fs::write(rt, table, bytes).map_err(|_| Unread::File(table))?;
        }
    }
    Ok(())
}

// Lays an older text under the name of each output. An output that can't be made is a folder.
fn lay_outputs<R: Files + AllocGlobal>(rt: &R, folder: &Folder<'_, R>) -> Result<(), Unread> {
    let unwritten = folder.bytes(UNWRITTEN)?;
    for (file, _) in OUTPUTS {
        if is_named(&unwritten, file) {
            fs::create_dir(rt, file).map_err(|_| Unread::File(file))?;
        } else {
            fs::write(rt, file, OLDER).map_err(|_| Unread::File(file))?;
        }
    }
    Ok(())
}

// Whether a line names a file.
fn is_named(line: &[u8], file: &str) -> bool {
    line.trim_ascii() == file.as_bytes()
}

// Whether a file has the text that is wanted: where none is, the older one, or it can't be read.
fn has_file<R: Files + AllocGlobal>(rt: &R, file: &str, wanted: Option<Vec<u8>>) -> bool {
    match (fs::read(rt, file), wanted) {
        (Ok(bytes), Some(wanted)) => bytes == wanted,
        (Ok(bytes), None) => bytes.as_slice() == OLDER,
        (Err(_), wanted) => wanted.is_none(),
    }
}

// The arguments of a case: the program's name and the words.
fn arguments<R: Files + AllocGlobal>(rt: &R, folder: &Folder<'_, R>) -> Result<Args, Unread> {
    let text = text_of_words(folder)?;
    let mut words = Vec::new(rt.alloc());
    words.push(String::from_str(rt.alloc(), "dta")?)?;
    for word in text.lines().flat_map(|line| line.split(' ')) {
        words.push(String::from_str(rt.alloc(), word)?)?;
    }
    Ok(words.into_iter())
}

// The number with which the program ends. It tells nothing more, as `status_of` of runs.rt.
fn number_of<R: AllocGlobal + Threads + Wait + Sync>(
    rt: &R,
    host: HostRuntime,
    arguments: Args,
) -> u8 {
    program(rt, Ok(arguments), &mut FileDesk::here(host))
}
