// The links of a cell at the start of a loading.
ghost use Rattle.cell_stages.specs.Contents.{limit_by, storage_by};
ghost use Rattle.dta_model.specs.Lent.{plan_of};
ghost use Rattle.dta_model.specs.Plans.{link_numbers, link_rates};
ghost use Rattle.dta_model.specs.Room.{wave_of as wave_at};
ghost use Rattle.dta_model.specs.Sound.{IsSound};
ghost use Rattle.capacity_credits.specs.Meter.{unopened};
ghost use Rattle.node_transfer.specs.Inside.StartCells.{kept_at_start, lines_left, start_in};
ghost use Rattle.node_transfer.specs.Inside.StartCells.{taken_outs, turns_at_start};
ghost use Rattle.net_core.specs.Rates.{AreRates};
ghost use Rattle.std.specs.Prelude.{◌≡◌, ◌<◌, ◌≤◌, All, IfOk, OnOk, length, map};
ghost use Rattle.std.specs.Prelude.{◌||◌, None, Some, cond, is_some, nat_eq, not};

use capacity_credits::Meter;
use cell_stages::{Exit, InLink, LimitedTurn, LimitedTurns, Mail, OutLink, Waiting};
use dta_model::{Loading, Queue};
use fixed_units::{Length, MOST_STEP, wave_steps};
use link_queues::{Leavings, Line};
use net_core::{LinkNo, Memory, Rates};
use std::alloc::Global;

/// Out-links before the first step. Their waiting lines are moved into them.
#[tactic(auto, using(crate::proofs::OfStart::Starts::start_steps))]
pub fn start_outs(
    alloc: Global,
    loading: &Loading,
    outs: &[LinkNo],
    lines: &mut [Line],
) -> Result<Vec<OutLink>, Memory>
    requires sound { IsSound (plan_of loading.now) }
    requires links { All (λ l. l.0 < length loading.now.net.now.links) outs.now }
    requires lines { length lines.old ≡ length loading.now.net.now.links }
    ensures taken { IfOk result
        (λ out_links. out_links.items
        ≡ taken_outs (plan_of loading.now) lines.old (link_numbers outs.now)) }
    ensures left { OnOk result (lines.new ≡ lines_left lines.old (link_numbers outs.now)) }
    ensures count { length lines.new ≡ length lines.old }
{
    let mut out_links = Vec::new(alloc);
    for i in 0..outs.len() {
        let inflow = start_meter(alloc, loading, outs[i])?;
        let out = OutLink {
            link: outs[i],
            inflow,
            waiting: Waiting {
                later: lines[outs[i].0 as usize].take_all(),
                due: Line::new(alloc),
            },
            batch: Line::new(alloc),
            mail: Mail::Away,
        };
        out_links.push(out)?;
    }
    Ok(out_links)
}

/// In-links before the first step.
#[tactic(auto, using(crate::proofs::OfStart::Starts::start_steps))]
pub fn start_ins(
    alloc: Global,
    loading: &Loading,
    ins: &[LinkNo],
    outs: &[LinkNo],
) -> Result<Vec<InLink>, Memory>
    requires sound { IsSound (plan_of loading.now) }
    requires ins { All (λ l. l.0 < length loading.now.net.now.links) ins.now }
    requires outs { All (λ l. l.0 < length loading.now.net.now.links) outs.now }
    ensures { IfOk result
        (λ in_links. in_links.items
        ≡ map (start_in (plan_of loading.now) (link_numbers outs.now)) (link_numbers ins.now)) }
{
    let mut in_links = Vec::new(alloc);
    for i in 0..ins.len() {
        let link = start_in_link(alloc, loading, ins[i], outs)?;
        in_links.push(link)?;
    }
    Ok(in_links)
}

// An in-link before the first step.
#[tactic(auto, using(crate::proofs::OfStart::Starts::start_steps))]
fn start_in_link(
    alloc: Global,
    loading: &Loading,
    link: LinkNo,
    outs: &[LinkNo],
) -> Result<InLink, Memory>
    requires sound { IsSound (plan_of loading.now) }
    requires link { link.0 < length loading.now.net.now.links }
    requires outs { All (λ l. l.0 < length loading.now.net.now.links) outs.now }
    ensures { IfOk result
        (λ in_link. in_link ≡ start_in (plan_of loading.now) (link_numbers outs.now) link.0) }
{
    let row = loading.net.link(link);
    let outflow = start_meter(alloc, loading, link)?;
    let turns = start_turns(alloc, loading, link, outs)?;
    let left = Leavings::new(alloc, wave_of(loading, link) - 1)?;
    Ok(InLink {
        line: Line::new(alloc),
        left,
        exit: Exit {
            free: row.free,
            outflow,
            turns,
        },
        storage: storage_of(loading.queue, row.storage),
        mail: Mail::Away,
    })
}

// The turns of an in-link that have a penalty or a limit. Where its node lists no turn, each is
// free.
#[tactic(auto, using(crate::proofs::OfStart::Starts::turn_steps))]
fn start_turns(
    alloc: Global,
    loading: &Loading,
    link: LinkNo,
    outs: &[LinkNo],
) -> Result<LimitedTurns, Memory>
    requires sound { IsSound (plan_of loading.now) }
    requires link { link.0 < length loading.now.net.now.links }
    requires outs { All (λ l. l.0 < length loading.now.net.now.links) outs.now }
    ensures { IfOk result
        (λ turns. turns ≡ turns_at_start (plan_of loading.now) link.0 (link_numbers outs.now)) }
{
    let mut list = Vec::new(alloc);
    let node = loading.net.link(link).to;
    if !loading.net.is_named(node) {
        return Ok(LimitedTurns { list });
    }
    for i in 0..outs.len() {
        match start_turn(alloc, loading, link, outs[i])? {
            None => {}
            Some(turn) => list.push(turn)?,
        }
    }
    Ok(LimitedTurns { list })
}

// The rates of a link, of which no step is open.
fn start_meter(alloc: Global, loading: &Loading, link: LinkNo) -> Result<Meter, Memory>
    requires sound { IsSound (plan_of loading.now) }
    requires link { link.0 < length loading.now.net.now.links }
    ensures { IfOk result
        (λ meter. meter ≡ unopened loading.now.delta (link_rates (plan_of loading.now) link.0)) }
{
    let rates = loading.net.link_rates(alloc, link)?;
    let meter = Meter::new(alloc, rates, loading.delta)?;
    Ok(meter)
}

// The turn from a link to another, where it has a penalty or a limit.
fn start_turn(
    alloc: Global,
    loading: &Loading,
    a: LinkNo,
    b: LinkNo,
) -> Result<Option<LimitedTurn>, Memory>
    requires sound { IsSound (plan_of loading.now) }
    requires from { a.0 < length loading.now.net.now.links }
    requires to { b.0 < length loading.now.net.now.links }
    ensures { IfOk result (λ turn. turn ≡ kept_at_start (plan_of loading.now) a.0 b.0) }
{
    match loading.net.turn(a, b) {
        None => Ok(None),
        Some(turn) => {
            let rates = loading.net.turn_rates(alloc, a, b)?;
            let limit = limit_of(alloc, rates, loading.delta)?;
            Ok(kept_turn(b, turn.penalty, limit))
        }
    }
}

// A turn, where it has a penalty or a limit.
fn kept_turn(to: LinkNo, penalty: u32, limit: Option<Meter>) -> Option<LimitedTurn>
    ensures { result ≡ cond (not (nat_eq penalty 0) || is_some limit)
        (Some (record { to = to; penalty = penalty; limit = limit })) None }
{
    if penalty == 0 && limit.is_none() {
        return None;
    }
    Some(LimitedTurn { to, penalty, limit })
}

// The limit by rates in steps of so many seconds; none where they limit no step.
fn limit_of(alloc: Global, rates: Rates, delta: u32) -> Result<Option<Meter>, Memory>
    requires rates { AreRates rates }
    requires step { delta ≤ MOST_STEP }
    ensures { IfOk result (λ limit. limit ≡ limit_by (unopened delta) rates) }
{
    if rates.usual.is_none() && rates.windows.as_slice().is_empty() {
        return Ok(None);
    }
    let meter = Meter::new(alloc, rates, delta)?;
    Ok(Some(meter))
}

// The steps that a backward wave takes over a link.
#[tactic(auto, using(crate::proofs::OfStart::Starts::start_steps))]
fn wave_of(loading: &Loading, link: LinkNo) -> u32
    requires sound { IsSound (plan_of loading.now) }
    requires link { link.0 < length loading.now.net.now.links }
    ensures steps { result ≡ wave_at (plan_of loading.now) link.0 }
    ensures least { 1 ≤ result }
{
    let micrometres = loading.net.link(link).micrometres;
    match loading.queue {
        Queue::Point => 1,
        Queue::Spatial => 1,
        Queue::Newell { wave } => {
            wave_steps(Length { micrometres }, wave, loading.delta, loading.horizon)
        }
    }
}

/// The storage of a link, where the queues are bounded by it.
pub fn storage_of(queue: Queue, storage: u32) -> Option<u32>
    ensures { result ≡ storage_by queue storage }
{
    match queue {
        Queue::Point => None,
        Queue::Spatial => Some(storage),
        Queue::Newell { .. } => Some(storage),
    }
}
