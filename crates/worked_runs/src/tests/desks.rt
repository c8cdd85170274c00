// Runs over a desk that moves a byte at a time, and over desks that count.
use crate::tests::{ASSIGN, desk_of, has_taken_all, run_over, two_links};
use desk_io::{Output, TallyDesk};
use dta_run::Status;
use std::alloc::Global;
use std::sync::Wait;
use std::test::Fail;
use std::thread::Threads;

#[test]
fn two_links_byte_by_byte(rt: HostRuntime) -> Result<(), Fail> {
    let mut desk = two_links(rt.alloc())?;
    desk.set_most(1);
    assert!(rt; run_over(&rt, ASSIGN, &mut desk)? == Status::Done);
    assert!(rt; has_taken_all(&desk));
    // The tables are read to their ends.
    assert!(rt; run_over(&rt, ASSIGN, &mut desk)? == Status::Table);
    Ok(())
}

// How many bytes of Report and of Agent a demonstration puts, by a desk that counts.
fn tally<R: AllocGlobal + Threads + Wait + Sync>(rt: &R) -> Result<(u64, u64), Fail> {
    let alloc: Global = rt.alloc();
    let mut desk = TallyDesk::new(
        Vec::new(alloc),
        Vec::new(alloc),
        Vec::new(alloc),
        Vec::new(alloc),
    );
    match run_over(rt, "demo 12", &mut desk)? {
        Status::Done => Ok((desk.count(Output::Report), desk.count(Output::Agent))),
        _ => Err(Fail::new("a run isn't done")),
    }
}

#[test]
fn a_demonstration_twice(rt: HostRuntime) -> Result<(), Fail> {
    let mut desk = desk_of(rt.alloc(), b"", b"", b"")?;
    assert!(rt; run_over(&rt, "demo 12", &mut desk)? == Status::Done);
    let counts = (desk.taken(Output::Report).len() as u64, 0);
    assert!(rt; tally(&rt)? == counts);
    assert!(rt; tally(&rt)? == counts);
    Ok(())
}
