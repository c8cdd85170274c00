// A loading that is written out, and is sound.
ghost use Rattle.dta_model.specs.Lent.{plan_of};
ghost use Rattle.dta_model.specs.Sound.{IsSound};
ghost use Rattle.std.specs.Prelude.{◌≡◌, IfOk, true};
ghost use Rattle.worked_cases.specs.Checked.{is_sound};
ghost use Rattle.worked_cases.specs.Written.{plan_written};

use crate::written::{Written, network, routes};
use dta_model::{Loading, Queue, Routes, Trip};
use net_core::{Memory, Net};
use std::alloc::Global;
use std::marker::Model;

/// The parts of a sound loading in steps of six seconds.
#[derive(Drop)]
pub struct Case {
    net: Net,
    queue: Queue,
    horizon: u32,
    trips: Vec<Trip>,
    routes: Routes,
}

impl Model for Case {
    ghost use Rattle.dta_model.specs.declared.plan.Plan.{Plan};
    ghost use Rattle.worked_cases.specs.CaseInside.{IsCase, plan_in};

    ghost Value = { Plan };

    ghost view = { plan_in };

    ghost invariant = { IsCase };
}

impl Case {
    /// The case that is written out.
    pub fn of(alloc: Global, written: &Written) -> Result<Self, Memory>
        requires { is_sound (plan_written written.now) ≡ true }
        ensures { IfOk result (λ case. case ≡ plan_written written.now) }
    {
        let net = network(alloc, written.nodes, written.links, written.turns)?;
        let trips = Vec::from_slice(alloc, written.trips)?;
        let routes = routes(alloc, written.ways)?;
        Ok(Case {
            net,
            queue: written.queue,
            horizon: written.horizon,
            trips,
            routes,
        })
    }

    /// Its parts, lent.
    pub fn loading(&self) -> Loading
        ensures plan { plan_of result ≡ self.now }
        ensures sound { IsSound (plan_of result) }
    {
        Loading {
            net: &self.net,
            queue: self.queue,
            delta: 6,
            horizon: self.horizon,
            trips: self.trips.as_slice(),
            routes: &self.routes,
        }
    }
}
