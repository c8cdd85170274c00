// Puts that fail in mid-stream, in a skim, in counts and in watch lines.
ghost use Rattle.dta_model.specs.Lent.{plan_of};
ghost use Rattle.dta_model.specs.Sound.{IsSound};

use crate::{two_links, two_links_in_a_line};
use counts::{ThroughCounts, TurnCounts, put_counts};
use desk_io::{Failed, MemDesk, Output};
use dta_model::Loading;
use loader::{CountGate, LoadFault, Watch, load};
use net_core::Memory;
use skims::{Skim, SkimEntry, put_skim};
use std::alloc::Global;
use std::sync::Wait;
use std::test::Fail;
use std::thread::Threads;

const SKIM: &[u8] = b"o_zone_id,d_zone_id,start_step,least_steps\n1,3,0,20\n3,1,0,\n";

const REPORT: &[u8] = b"nodes 3\nlinks 2\nzones 2\nentries 2\n";

// A desk with nothing to read.
fn empty_desk(alloc: Global) -> MemDesk {
    MemDesk::new(
        alloc,
        Vec::new(alloc),
        Vec::new(alloc),
        Vec::new(alloc),
        Vec::new(alloc),
    )
}

// The skim of two entries: there is a walk from zone 1 to zone 3, and none back.
fn two_entries(alloc: Global) -> Result<Skim, Memory> {
    let mut entries = Vec::new(alloc);
    entries.push(SkimEntry {
        origin: 1,
        destination: 3,
        start: 0,
        least: Some(20),
    })?;
    entries.push(SkimEntry {
        origin: 3,
        destination: 1,
        start: 0,
        least: None,
    })?;
    Ok(Skim::of(entries))
}

// What Skim and Report take of it, where a put of 20 bytes at most fails, and whether that is
// told.
fn put_failing(alloc: Global, call: u64) -> Result<(bool, MemDesk), Memory> {
    let net = two_links(alloc)?;
    let skim = two_entries(alloc)?;
    let mut desk = empty_desk(alloc);
    desk.set_most(20);
    desk.fail_put(call)?;
    let is_refused = put_skim(&mut desk, &net, &skim) == Err(Failed);
    Ok((is_refused, desk))
}

// Whether so many first bytes of both went out where a put fails.
fn leaves(alloc: Global, call: u64, of_skim: usize, of_report: usize) -> Result<bool, Memory> {
    let (is_refused, desk) = put_failing(alloc, call)?;
    Ok(
        is_refused
            && desk.put_faults() == 1
            && is_first_part(desk.taken(Output::Skim), SKIM, of_skim)
            && is_first_part(desk.taken(Output::Report), REPORT, of_report),
    )
}

// Whether these are the first bytes of a text, so many.
fn is_first_part(bytes: &[u8], text: &[u8], count: usize) -> bool {
    count <= text.len() && bytes == &text[..count]
}

// Puts that fail leave first parts: of Report only where Skim is whole.
#[test]
fn a_skim_that_is_cut_short(rt: HostRuntime) -> Result<(), Fail> {
    for (call, of_skim, of_report) in [(1, 0, 0), (3, 40, 0), (4, 59, 0), (5, 59, 20)] {
        assert!(rt; leaves(rt.alloc(), call, of_skim, of_report)?, "put {call}");
    }
    Ok(())
}

// Whether a put of counts without turns and vehicles fails, of which the desk takes a first part.
fn puts_no_counts(alloc: Global, desk: &mut MemDesk) -> Result<bool, Memory> {
    let net = two_links(alloc)?;
    let turns = TurnCounts::of(Vec::new(alloc));
    let through = ThroughCounts::of(Vec::new(alloc));
    Ok(put_counts(desk, &net, &turns, &through, 50, 60) == Err(Failed))
}

#[test]
fn counts_that_are_cut_short(rt: HostRuntime) -> Result<(), Fail> {
    let mut desk = empty_desk(rt.alloc());
    desk.set_most(20);
    desk.fail_put(2)?;
    assert!(rt; puts_no_counts(rt.alloc(), &mut desk)?);
    assert!(rt; desk.taken(Output::Counts) == b"kind,first,second,fr".as_slice());
    Ok(())
}

// Whether a loading with watch lines ends at one that can't be put, once its floor is closed.
fn loads_in_vain<R: AllocGlobal + Threads + Wait + Sync>(
    rt: &R,
    loading: &Loading,
    desk: &mut MemDesk,
) -> bool
    requires { IsSound (plan_of loading.now) }
{
    let every_ten = Watch {
        iteration: 1,
        every: 10,
    };
    let mut gate = CountGate::new();
    matches!(
        load(rt, loading, 1, &mut gate, desk, every_ten),
        Err(LoadFault::WatchFault)
    ) && gate.closes == 1
}

// The same for two links in a line.
fn loads_two_links_in_vain<R: AllocGlobal + Threads + Wait + Sync>(
    rt: &R,
    desk: &mut MemDesk,
) -> Result<bool, Memory> {
    let case = two_links_in_a_line(rt.alloc())?;
    Ok(loads_in_vain(rt, &case.loading(), desk))
}

#[test]
fn watch_lines_that_are_cut_short(rt: HostRuntime) -> Result<(), Fail> {
    let mut desk = empty_desk(rt.alloc());
    desk.fail_put(2)?;
    assert!(rt; loads_two_links_in_vain(&rt, &mut desk)?);
    assert!(rt; desk.taken(Output::Watch) == b"1,10,0,1,0,1,0,0,0\n".as_slice());
    Ok(())
}
