// The run of a case.
use crate::difference::{Difference, Unread};
use crate::folder::Folder;
use crate::outputs::compare;
use desk_io::MemDesk;
use dta_run::{NoGate, Status, run};
use dta_words::Words;
use std::rt::Files;
use std::sync::Wait;
use std::thread::Threads;

// The file of the words, and that of the status that is wanted.
const WORDS: &str = "words.txt";

const STATUS: &str = "expected/status";

/// What the run of a case gives that isn't as it is wanted.
pub(crate) fn differences<R: Files + AllocGlobal + Threads + Wait + Sync>(
    rt: &R,
    folder: &Folder<'_, R>,
) -> Result<Vec<Difference>, Unread> {
    let words = words(rt, folder)?;
    let mut desk = desk(rt, folder)?;
    let given = status_of(rt, &words, &mut desk).number();
    let wanted = status_wanted(folder)?;
    let mut found = Vec::new(rt.alloc());
    if given != wanted {
        found.push(Difference::Status { given, wanted })?;
    }
    compare(folder, &desk, &mut found)?;
    Ok(found)
}

/// The words of a case, on one line between single blanks.
pub(crate) fn text_of_words<R: Files + AllocGlobal>(
    folder: &Folder<'_, R>,
) -> Result<String, Unread> {
    folder.text(WORDS)
}

// The words of a case.
fn words<R: Files + AllocGlobal>(rt: &R, folder: &Folder<'_, R>) -> Result<Words, Unread> {
    let text = text_of_words(folder)?;
    let mut words = Words::new(rt.alloc());
    for line in text.lines() {
        for word in line.split(' ') {
            words.push(word)?;
        }
    }
    Ok(words)
}

// A desk with the tables of a case, of zero bytes where there is no file.
fn desk<R: Files + AllocGlobal>(rt: &R, folder: &Folder<'_, R>) -> Result<MemDesk, Unread> {
    let node = folder.bytes("node.csv")?;
    let link = folder.bytes("link.csv")?;
    let movement = folder.bytes("movement.csv")?;
    let demand = folder.bytes("demand.csv")?;
    let mut desk = MemDesk::new(rt.alloc(), node, link, movement, demand);
    desk.set_start(folder.bytes("start.csv")?);
    desk.set_times(folder.bytes("times.csv")?);
    Ok(desk)
}

/// The status that is wanted.
pub(crate) fn status_wanted<R: Files + AllocGlobal>(folder: &Folder<'_, R>) -> Result<u8, Unread> {
    match folder.text(STATUS)?.trim_end().parse::<u8>() {
        Ok(status) => Ok(status),
        Err(_) => Err(Unread::File(STATUS)),
    }
}

// The status of a run. It tells nothing more, since what is known of a run and a desk would stand
// in the proofs of its callers.
fn status_of<R: AllocGlobal + Threads + Wait + Sync>(
    rt: &R,
    words: &Words,
    desk: &mut MemDesk,
) -> Status {
    run(rt, words, desk, &mut NoGate)
}
