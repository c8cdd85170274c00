// The public call.
ghost use Rattle.std.specs.Prelude.{◌≡◌, ◌≤◌, ℕ, List, Some, true};
ghost use Rattle.std.specs.Thread.{IsSync};
ghost use Rattle.dta_words.specs.Ranges.{AreSettings};
ghost use Rattle.jobs.specs.Jobs.{IsJob};
ghost use Rattle.jobs.specs.Kinds.{IsFor, rows_in_job};
ghost use Rattle.dta_words.specs.Grammar.{settings_of};
ghost use Rattle.loader.specs.Gates.{gate_of};
ghost use Rattle.commands.specs.Calls.{DoesWork};
ghost use Rattle.dta_run.specs.Headline.{Headline};
ghost use Rattle.dta_run.specs.Outcome.{Means};
ghost use Rattle.dta_run.specs.Receipts.{RunGives, takes_workers};
ghost use Rattle.assign_command.specs.Receipts.{WorkGives};

use crate::accepted::{accept_and_work, refuse};
use crate::without_workers::{run_without_workers, takes_workers};
use assign_command::assign;
use commands::Status;
use desk_io::Desk;
use dta_words::{Settings, Words, WordsRefusal, settings};
use jobs::Job;
use loader::Gate;
use reports::Refusal;
use std::sync::Wait;
use std::thread::Threads;

// Does the work over an accepted job whose loadings are by workers.
#[tactic(auto, using(crate::proofs::ReceiptFacts::assigning))]
fn work_by_workers<R: AllocGlobal + Threads + Wait + Sync, D: Desk + Send, G: Gate + Sync>(
    rt: &R,
    settings: &Settings,
    job: &Job,
    gate: &mut G,
    desk: &mut D,
) -> Status
    requires settings { AreSettings settings.now }
    requires job { IsJob settings.now (rows_in_job job.now) }
    requires own { IsFor settings.now.command job.now }
    requires workers { takes_workers settings.now ≡ true }
    ensures works { DoesWork settings.now (rows_in_job job.now)
        (D.state desk.old) (D.state desk.new) result }
    ensures receipts { let shown = gate_of G.closes G.last in
        WorkGives settings.now (rows_in_job job.now) result (shown gate.old) (shown gate.new) }
{
    let Job::Assign(job) = job else {
        unreachable!()
    };
    assign(rt, settings, job, gate, desk)
}

// Does what settings ask for, by workers where they take some.
fn run_settings<R: AllocGlobal + Threads + Wait + Sync, D: Desk + Send, G: Gate + Sync>(
    rt: &R,
    settings: &Settings,
    gate: &mut G,
    desk: &mut D,
) -> Status
    requires settings { AreSettings settings.now }
    ensures means { (words : List (List ℕ)) → settings_of words ≡ Some settings.now
        → Means words result (D.state desk.old) (D.state desk.new) }
    ensures receipts { let shown = gate_of G.closes G.last in
        (words : List (List ℕ)) → settings_of words ≡ Some settings.now
        → RunGives words result (D.state desk.old) (D.state desk.new)
        (shown gate.old) (shown gate.new) }
    ensures reads { (D.state desk.old).read_faults ≤ (D.state desk.new).read_faults }
    ensures puts { (D.state desk.old).put_faults ≤ (D.state desk.new).put_faults }
{
    let alone = !takes_workers(settings);
    if alone {
        return run_without_workers(rt, settings, desk);
    }
    accept_and_work(
        rt.alloc(),
        settings,
        gate,
        desk,
        |job, gate, desk|
            requires { IsSync R.row × IsSync G.row × AreSettings settings.now
                × IsJob settings.now (rows_in_job job.now) × IsFor settings.now.command job.now
                × (takes_workers settings.now ≡ true) }
        { work_by_workers(rt, settings, job, gate, desk) },
    )
}

// Checks the words and the tables, and does the work.
fn answer<R: AllocGlobal + Threads + Wait + Sync, D: Desk + Send, G: Gate + Sync>(
    rt: &R,
    words: &Words,
    gate: &mut G,
    desk: &mut D,
) -> Status
    ensures means { Means words.now result (D.state desk.old) (D.state desk.new) }
    ensures receipts { let shown = gate_of G.closes G.last in
        RunGives words.now result (D.state desk.old) (D.state desk.new)
        (shown gate.old) (shown gate.new) }
    ensures reads { (D.state desk.old).read_faults ≤ (D.state desk.new).read_faults }
    ensures puts { (D.state desk.old).put_faults ≤ (D.state desk.new).put_faults }
{
    match settings(rt.alloc(), words) {
        Ok(settings) => run_settings(rt, &settings, gate, desk),
        Err(WordsRefusal::Usage) => refuse(desk, Refusal::Usage),
        Err(WordsRefusal::Memory) => Status::Memory,
    }
}

/// Does what the words ask for. `words` are those after the program's name.
///
/// - `freeflow` reads the node and the link table of the desk, and puts each link's free-flow
///   steps and storage to LinkTime, and the numbers of nodes and links to Report.
/// - `assign` reads the node, link, movement and demand table, iterates routes, loadings, link
///   times and gaps (successive averages over a queue-based simulator, Zhou and Taylor 2014), and
///   puts Agent, LinkTime, Gap and Report, in this order. With `--costs trips` routes and gaps go
///   by whole trips, waits at origins included, and these are put to OriginWait, after LinkTime.
///   With `--start` it reads an earlier agent table too, whose routes come first where they fit,
///   and tells in Agent since which iteration each vehicle has its route.
/// - `demo` does the same over a made grid, and puts Report in place of them all.
/// - `skim` reads a network and a table of link times, and puts the least times between all zones
///   to Skim, and Report.
/// - `counts` does the work of `assign`, and puts the counts of turns over the last loading, and
///   through a link, to Counts, and Report.
/// - `sweep` puts the texts of an assignment for each multiple of the demand to Sweep, and Report.
/// - `audit` reads an agent table and a table of link times beside the tables of an assignment,
///   and reports whether they are what the plain loading over the agents' routes gives, or the
///   first place that differs, and then answers Differs.
///
/// With a watch, each iteration puts states of its loading to Watch, the last one once it is
/// loaded. The loadings of iterations are by workers, who pass the gate, unless the words ask for
/// the plain loader; those of a sweep and an audit are plain.
///
/// A table is checked before the next is read. The calls that put outputs but Watch take no
/// allocator, so that no memory is taken once the first of them has begun.
#[tactic(auto, using(crate::proofs::ReceiptFacts::answers))]
pub fn run<R: AllocGlobal + Threads + Wait + Sync, D: Desk + Send, G: Gate + Sync>(
    rt: &R,
    words: &Words,
    desk: &mut D,
    gate: &mut G,
) -> Status
    ensures headline { let shown = gate_of G.closes G.last in
        Headline words.now result (D.state desk.old) (D.state desk.new)
        (shown gate.old) (shown gate.new) }
{
    answer(rt, words, gate, desk)
}
