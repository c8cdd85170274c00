// The outputs of a run beside what is wanted of them.
use crate::difference::{Difference, Unread};
use crate::folder::Folder;
use crate::watch::rise_to;
use desk_io::{MemDesk, Output};
use std::rt::Files;

// The outputs whose bytes the words and tables determine, with the files of what is wanted.
const DETERMINED: [(Output, &str); 8] = [
    (Output::Report, "expected/report"),
    (Output::Agent, "expected/agent.csv"),
    (Output::LinkTime, "expected/link_performance.csv"),
    (Output::OriginWait, "expected/origin_wait.csv"),
    (Output::Gap, "expected/gap.csv"),
    (Output::Skim, "expected/skim.csv"),
    (Output::Counts, "expected/counts.csv"),
    (Output::Sweep, "expected/sweep.txt"),
];

// What is wanted of the watch lines: all of them, or the last one.
const WATCH: &str = "expected/watch";

const LAST_OF_WATCH: &str = "expected/watch_last";

/// What of the outputs isn't as it is wanted, behind what was found before.
pub(crate) fn compare<R: Files + AllocGlobal>(
    folder: &Folder<'_, R>,
    desk: &MemDesk,
    found: &mut Vec<Difference>,
) -> Result<(), Unread> {
    for (output, file) in DETERMINED {
        if !has_taken(desk, output, &folder.bytes(file)?) {
            found.push(Difference::Output(file))?;
        }
    }
    if !is_watched(folder, desk)? {
        found.push(Difference::Output(WATCH))?;
    }
    Ok(())
}

// Whether an output has taken this text.
fn has_taken(desk: &MemDesk, output: Output, text: &[u8]) -> bool {
    desk.taken(output) == text
}

// Whether the watch lines are as they are wanted: these, or lines that rise to this last one.
fn is_watched<R: Files + AllocGlobal>(
    folder: &Folder<'_, R>,
    desk: &MemDesk,
) -> Result<bool, Unread> {
    match folder.find(LAST_OF_WATCH)? {
        None => Ok(has_taken(desk, Output::Watch, &folder.bytes(WATCH)?)),
        Some(last) => Ok(rise_to(desk.taken(Output::Watch), &last)),
    }
}
