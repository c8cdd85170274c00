//! Whole runs whose outputs are known: each folder of `data/` is a case.
//!
//! A case has the words of a command line (`words.txt`), the tables that the run reads, and what
//! it is to put (`expected/`): its status, and each output under the name of its file. An output
//! without a file there takes nothing. The program runs each case over a desk in memory, and those
//! whose names begin with `over_files` over the files of its own folder, by the call that `dta`
//! makes: their reports go to standard output. It prints `right` and the case's name or what is
//! otherwise than wanted, and then how many cases are right. It ends with 1 where one isn't.
#![tactic(auto)]

mod difference;
mod files;
mod folder;
mod outputs;
mod runs;
#[cfg(test)]
mod tests;
mod watch;

use difference::{Difference, Unread};
use files::differences_of_files;
use folder::Folder;
use runs::differences;
use std::process::ExitCode;
use std::rt::Files;
use std::sync::Wait;
use std::thread::Threads;
use std::{fs, io};

// The names of the cases, in order.
fn names<R: Files + AllocGlobal + Clone + Drop>(rt: &R) -> io::Result<Vec<String>> {
    let mut names = Vec::new(rt.alloc());
    for entry in fs::read_dir(rt, ".")? {
        let entry = entry?;
        if entry.file_type()?.is_dir() {
            names.push(String::from_str(rt.alloc(), entry.file_name())?)?;
        }
    }
    names.sort()?;
    Ok(names)
}

// Runs a case, and answers what isn't as it is wanted.
fn found_in<R: Files + AllocGlobal + Threads + Wait + Sync>(
    rt: &R,
    host: HostRuntime,
    name: &str,
) -> Result<Vec<Difference>, Unread> {
    let folder = Folder::new(rt, name);
    if name.starts_with("over_files") {
        differences_of_files(rt, host, &folder)
    } else {
        differences(rt, &folder)
    }
}

// Runs a case, prints how it went, and answers whether it is right.
fn is_right<R: Files + Print + AllocGlobal + Threads + Wait + Sync>(
    rt: &R,
    host: HostRuntime,
    name: &str,
) -> io::Result<bool> {
    let found = match found_in(rt, host, name) {
        Ok(found) => found,
        Err(unread) => {
            println!(rt; "{name}: {unread}")?;
            return Ok(false);
        }
    };
    if found.is_empty() {
        println!(rt; "right {name}")?;
    }
    for difference in &found {
        println!(rt; "{name}: {difference}")?;
    }
    Ok(found.is_empty())
}

fn main(rt: HostRuntime) -> io::Result<ExitCode> {
    let names = names(&rt)?;
    let mut wrong = Vec::new(rt.alloc());
    for name in &names {
        if !is_right(&rt, rt, name)? {
            wrong.push(name)?;
        }
    }
    println!(rt; "{} right", names.len().saturating_sub(wrong.len()))?;
    Ok(ExitCode::from(u8::from(!wrong.is_empty())))
}
