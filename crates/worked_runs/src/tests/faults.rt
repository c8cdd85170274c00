// Reads and puts that fail.
use crate::tests::{
    AGENTS, ASSIGN, GAPS, LINK_TIMES, SUMMARY, TRIPS, WAITS, has_taken, has_taken_all, run_over,
    two_links,
};
use desk_io::{MemDesk, Output};
use dta_run::Status;
use std::sync::Wait;
use std::test::Fail;
use std::thread::Threads;

// A desk with the two links, of which a call moves at most 16 bytes.
fn slow_desk<R: AllocGlobal>(rt: &R) -> Result<MemDesk, Fail> {
    let mut desk = two_links(rt.alloc())?;
    desk.set_most(16);
    Ok(desk)
}

// Whether a run told of a read that failed and did nothing else.
fn tells_of_a_read(desk: &MemDesk) -> bool {
    desk.read_faults() == 1
        && desk.put_faults() == 0
        && desk.taken(Output::Agent).is_empty()
        && desk.taken(Output::LinkTime).is_empty()
        && desk.taken(Output::Report).starts_with(b"read fault in ")
}

// Whether no read fails where the call of this number is to fail. Otherwise the run has to end so.
fn reads_less_than<R: AllocGlobal + Threads + Wait + Sync>(
    rt: &R,
    line: &str,
    call: u64,
) -> Result<bool, Fail> {
    let mut desk = slow_desk(rt)?;
    desk.fail_read(call)?;
    match run_over(rt, line, &mut desk)? {
        Status::Done if desk.read_faults() == 0 => Ok(true),
        Status::ReadFault if tells_of_a_read(&desk) => Ok(false),
        _ => Err(Fail::new("a read that fails")),
    }
}

// How many reads a run has, of which each was made to fail.
fn count_of_reads<R: AllocGlobal + Threads + Wait + Sync>(rt: &R, line: &str) -> Result<u64, Fail> {
    for call in 1..1000 {
        if reads_less_than(rt, line, call)? {
            return Ok(call - 1);
        }
    }
    Err(Fail::new("no run was without a fault"))
}

#[test]
fn failing_reads(rt: HostRuntime) -> Result<(), Fail> {
    assert!(rt; count_of_reads(&rt, "freeflow")? >= 2);
    assert!(rt; count_of_reads(&rt, ASSIGN)? >= 4);
    Ok(())
}

// Whether an output has a first part of this text, and the next one has nothing unless it is
// whole.
fn is_begun(desk: &MemDesk, output: Output, text: &[u8], next: Output) -> bool {
    let taken = desk.taken(output);
    text.starts_with(taken) && (taken == text || desk.taken(next).is_empty())
}

// Whether a run told of a put that failed, and the outputs are begun in their order, with these
// origin waits.
fn tells_of_a_put(desk: &MemDesk, waits: &[u8]) -> bool {
    desk.read_faults() == 0
        && desk.put_faults() == 1
        && is_begun(desk, Output::Agent, AGENTS, Output::LinkTime)
        && is_begun(desk, Output::LinkTime, LINK_TIMES, Output::OriginWait)
        && is_begun(desk, Output::LinkTime, LINK_TIMES, Output::Gap)
        && is_begun(desk, Output::OriginWait, waits, Output::Gap)
        && is_begun(desk, Output::Gap, GAPS, Output::Report)
        && is_begun(desk, Output::Report, SUMMARY, Output::Watch)
}

// Whether no put fails where the call of this number is to fail. Otherwise the run has to end so,
// with no more bytes in Agent than the puts before it can have moved.
fn puts_less_than<R: AllocGlobal + Threads + Wait + Sync>(
    rt: &R,
    line: &str,
    waits: &[u8],
    call: u64,
) -> Result<bool, Fail> {
    let mut desk = slow_desk(rt)?;
    desk.fail_put(call)?;
    let status = run_over(rt, line, &mut desk)?;
    let agents = desk.taken(Output::Agent).len() as u64;
    match status {
        Status::Done if has_taken_all(&desk) && has_taken(&desk, Output::OriginWait, waits) => {
            Ok(true)
        }
        Status::WriteFault if tells_of_a_put(&desk, waits) && agents / 16 < call => Ok(false),
        _ => Err(Fail::new("a put that fails")),
    }
}

// How many puts a run has, of which each was made to fail.
fn count_of_puts<R: AllocGlobal + Threads + Wait + Sync>(
    rt: &R,
    line: &str,
    waits: &[u8],
) -> Result<u64, Fail> {
    for call in 1..1000 {
        if puts_less_than(rt, line, waits, call)? {
            return Ok(call - 1);
        }
    }
    Err(Fail::new("no run was without a fault"))
}

#[test]
fn failing_puts(rt: HostRuntime) -> Result<(), Fail> {
    let by_links = count_of_puts(&rt, ASSIGN, b"")?;
    assert!(rt; by_links >= 4);
    // The origin waits go in four puts of at most 16 bytes.
    assert!(rt; count_of_puts(&rt, TRIPS, WAITS)? == by_links.saturating_add(4));
    Ok(())
}
