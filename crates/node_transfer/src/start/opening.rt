// The start of a loading.
ghost use Rattle.dta_model.specs.Lent.{plan_of};
ghost use Rattle.dta_model.specs.Sound.{IsSound};
ghost use Rattle.node_transfer.specs.Start.{IsStart, no_journeys, rooms_at_start};
ghost use Rattle.std.specs.Prelude.{◌≡◌, IfOk};

use crate::lists::{Cells, Mails, Opening};
use crate::start::cells::start_cells;
use crate::start::lines::waiting_lines;
use crate::start::links::storage_of;
use cell_stages::Mail;
use dta_model::{Journey, Loaded, Loading, Steps};
use net_core::{LinkNo, Memory};
use std::alloc::Global;

/// The parts of a loading at the start of step 0. Every place for mail in the cells is empty.
pub fn opening(alloc: Global, loading: &Loading) -> Result<Opening, Memory>
    requires { IsSound (plan_of loading.now) }
    ensures { IfOk result (IsStart (plan_of loading.now)) }
{
    let mut lines = waiting_lines(alloc, loading)?;
    let cells = start_cells(alloc, loading, &mut lines)?;
    let mail = start_rooms(alloc, loading)?;
    let loaded = start_journeys(alloc, loading.trips.len())?;
    Ok(Opening {
        cells: Cells::of(cells),
        mail: Mails::of(mail),
        loaded: Loaded::of(loaded),
    })
}

// The room of each link, all of it free.
#[tactic(auto, using(crate::proofs::OfStart::Starts::start_steps))]
fn start_rooms(alloc: Global, loading: &Loading) -> Result<Vec<Mail>, Memory>
    ensures { IfOk result (λ mail. mail.items ≡ rooms_at_start (plan_of loading.now)) }
{
    let mut mail = Vec::new(alloc);
    for l in 0..loading.net.link_count() {
        let storage = loading.net.link(LinkNo(l)).storage;
        let room = storage_of(loading.queue, storage);
        mail.push(Mail::Room { step: 0, room })?;
    }
    Ok(mail)
}

// A journey without entries and arrival for each of so many vehicles.
#[tactic(auto, using(crate::proofs::OfStart::Starts::start_steps))]
fn start_journeys(alloc: Global, count: usize) -> Result<Vec<Journey>, Memory>
    ensures { IfOk result (λ journeys. journeys.items ≡ no_journeys count) }
{
    let mut journeys = Vec::new(alloc);
    for v in 0..count {
        let journey = Journey {
            entries: Steps::of(Vec::new(alloc)),
            arrival: None,
        };
        journeys.push(journey)?;
    }
    Ok(journeys)
}
