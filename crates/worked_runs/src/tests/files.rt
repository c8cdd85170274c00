// The whole program over a folder in memory: from the bytes of files by their names to the bytes of
// files by theirs.
use crate::tests::{AGENTS, ASSIGN, DEMAND, GAPS, LINK_TIMES, LINKS, NODES, SUMMARY};
use desk_io::Output;
use dta_run::program;
use file_desk::{FileDesk, MemFolder};
use std::alloc::Global;
use std::collections::BTreeMap;
use std::env::Args;
use std::io;
use std::io::ErrorKind;
use std::sync::Wait;
use std::test::Fail;
use std::thread::Threads;

type MemFiles = FileDesk<MemFolder, Vec<u8>, Vec<u8>>;

const TABLES: [(&str, &[u8]); 3] = [
    ("node.csv", NODES),
    ("link.csv", LINKS),
    ("demand.csv", DEMAND),
];

// A desk over a folder with the two links in a line.
fn two_links(alloc: Global) -> Result<MemFiles, Fail> {
    let mut files = BTreeMap::new(alloc);
    for (name, bytes) in TABLES {
        let name = String::from_str(alloc, name)?;
        files.insert(name, Vec::from_slice(alloc, bytes)?)?;
    }
    let folder = MemFolder::new(alloc, files);
    Ok(FileDesk::over(folder, Vec::new(alloc), Vec::new(alloc)))
}

// The program's name and the words of a line.
fn arguments(alloc: Global, line: &str) -> Result<Args, Fail> {
    let mut words = Vec::new(alloc);
    words.push(String::from_str(alloc, "dta")?)?;
    for word in line.split(' ') {
        words.push(String::from_str(alloc, word)?)?;
    }
    Ok(words.into_iter())
}

// The number with which the program ends. It tells nothing more, as `status_of`.
fn number_of<R: AllocGlobal + Threads + Wait + Sync>(
    rt: &R,
    arguments: io::Result<Args>,
    desk: &mut MemFiles,
) -> u8 {
    program(rt, arguments, desk)
}

// Whether the file of an output holds this text.
fn holds(desk: &MemFiles, output: Output, text: &[u8]) -> bool {
    match desk.made(output) {
        Some(file) => file.bytes() == text,
        None => false,
    }
}

// Whether the files and the report are those of a run over the two links.
fn holds_all(desk: &MemFiles) -> bool {
    holds(desk, Output::Agent, AGENTS)
        && holds(desk, Output::LinkTime, LINK_TIMES)
        && holds(desk, Output::Gap, GAPS)
        && desk.made(Output::Skim).is_none()
        && desk.report().as_slice() == SUMMARY
}

#[test]
fn an_assignment_from_files_to_files(rt: HostRuntime) -> Result<(), Fail> {
    let mut desk = two_links(rt.alloc())?;
    let arguments = arguments(rt.alloc(), ASSIGN)?;
    assert!(rt; number_of(&rt, Ok(arguments), &mut desk) == 0);
    assert!(rt; holds_all(&desk));
    Ok(())
}

// The number where the arguments can't be had, for this reason.
fn number_without_words<R: AllocGlobal + Threads + Wait + Sync>(
    rt: &R,
    why: ErrorKind,
) -> Result<u8, Fail> {
    let mut desk = two_links(rt.alloc())?;
    Ok(number_of(rt, Err(io::Error::from(why)), &mut desk))
}

#[test]
fn numbers_without_words(rt: HostRuntime) -> Result<(), Fail> {
    assert!(rt; number_without_words(&rt, ErrorKind::OutOfMemory)? == 6);
    assert!(rt; number_without_words(&rt, ErrorKind::InvalidData)? == 1);
    Ok(())
}
