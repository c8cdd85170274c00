// Runs that no folder of worked_runs can show: with a gate of their own, with reads and puts that
// fail, with workers that are held, and at limits.
//
// What a test knows of a run and of a desk stands in the proof of the test, which gets long where
// it is much, and longer where a desk lives in a loop that may be left. So `status_of` and
// `has_taken` tell nothing, and what is done in a turn of a loop is a function of its own.
mod desks;
mod faults;
mod files;
mod gates;
mod held;
mod limits;

use desk_io::{Desk, MemDesk, Output};
use dta_run::{Gate, NoGate, Status, run};
use dta_words::Words;
use std::alloc::Global;
use std::sync::Wait;
use std::test::Fail;
use std::thread::Threads;

const NODES: &[u8] = b"node_id,zone_id\n1,1\n2,\n3,3\n";

const LINKS: &[u8] = b"link_id,from_node_id,to_node_id,length,lanes,free_speed,capacity\n\
10,1,2,1000,1,60,600\n20,2,3,1000,1,60,600\n";

const DEMAND: &[u8] = b"o_zone_id,d_zone_id,volume\n1,3,3\n";

// The words of a run over two links in a line, over which three vehicles go, and what it puts.
const ASSIGN: &str = "assign --period 30 --horizon 60";

const AGENTS: &[u8] =
    b"agent_id,o_zone_id,d_zone_id,departure_step,arrival_step,status,link_ids,entry_steps\n\
0,1,3,5,25,arrived,10;20,5;15\n1,1,3,15,35,arrived,10;20,15;25\n2,1,3,25,45,arrived,10;20,25;35\n";

const LINK_TIMES: &[u8] = b"link_id,from_step,to_step,entered,travel_steps,free_steps\n\
10,0,50,3,10,10\n10,50,60,0,10,10\n20,0,50,3,10,10\n20,50,60,0,10,10\n";

const GAPS: &[u8] = b"iteration,route_steps,least_steps,gap_steps,gap_ppm\n1,60,60,0,0\n";

const SUMMARY: &[u8] = b"nodes 3\nlinks 2\nvehicles 3\nunrouted 0\niterations 1\narrived 3\n\
running 0\nwaiting 0\nroute_steps 60\nleast_steps 60\ngap_steps 0\ngap_ppm 0\n";

// The words of the same run by trips, and its origin waits. What else it puts stays, since nobody
// waits and no link time falls.
const TRIPS: &str = "assign --period 30 --horizon 60 --costs trips";

const WAITS: &[u8] = b"link_id,from_step,to_step,departed,wait_steps\n10,0,50,3,0\n";

// A desk with these tables of nodes, links and demand.
fn desk_of(alloc: Global, node: &[u8], link: &[u8], demand: &[u8]) -> Result<MemDesk, Fail> {
    let node = Vec::from_slice(alloc, node)?;
    let link = Vec::from_slice(alloc, link)?;
    let demand = Vec::from_slice(alloc, demand)?;
    Ok(MemDesk::new(alloc, node, link, Vec::new(alloc), demand))
}

// A desk with the two links in a line.
fn two_links(alloc: Global) -> Result<MemDesk, Fail> {
    desk_of(alloc, NODES, LINKS, DEMAND)
}

// The words of a line.
fn words_in(alloc: Global, line: &str) -> Result<Words, Fail> {
    let mut words = Words::new(alloc);
    for word in line.split(' ') {
        words.push(word)?;
    }
    Ok(words)
}

// The status of a run with these words over a desk.
fn status_of<R: AllocGlobal + Threads + Wait + Sync, D: Desk + Send, G: Gate + Sync>(
    rt: &R,
    words: &Words,
    desk: &mut D,
    gate: &mut G,
) -> Status {
    run(rt, words, desk, gate)
}

// The status of a run with the words of a line over a desk.
fn run_over<R: AllocGlobal + Threads + Wait + Sync, D: Desk + Send>(
    rt: &R,
    line: &str,
    desk: &mut D,
) -> Result<Status, Fail> {
    let words = words_in(rt.alloc(), line)?;
    Ok(status_of(rt, &words, desk, &mut NoGate))
}

// Whether an output has taken this text.
fn has_taken(desk: &MemDesk, output: Output, text: &[u8]) -> bool {
    desk.taken(output) == text
}

// Whether the outputs have taken what a run over the two links puts.
fn has_taken_all(desk: &MemDesk) -> bool {
    has_taken(desk, Output::Agent, AGENTS)
        && has_taken(desk, Output::LinkTime, LINK_TIMES)
        && has_taken(desk, Output::Gap, GAPS)
        && has_taken(desk, Output::Report, SUMMARY)
}
