// A vehicle on its way.
ghost use Rattle.dta_model.specs.Plans.{link_numbers};
ghost use Rattle.dta_model.specs.Riders.{moved};
ghost use Rattle.link_queues.specs.Riders.{setting_out};
ghost use Rattle.std.specs.List.{last_or};
ghost use Rattle.std.specs.Prelude.{◌≡◌, ◌≢◌, ◌++◌, [], ◌↔◌, length, slice_get, option_map};
ghost use Rattle.std.specs.Prelude.{◌≤◌, ◌+◌, IfOk, IsNone, IsSome, None};
ghost use Rattle.std.specs.Vec.{vec_len, vec_capacity};

use dta_model::{Journey, Route, Steps};
use net_core::LinkNo;
use std::alloc::{AllocError, Global};
use std::marker::Model;

/// A vehicle on its way along a route. The last entry and the next link stand beside the list too,
/// so that who looks at a head follows no pointer.
#[derive(Drop)]
pub struct Rider {
    number: u32,
    departure: u32,
    last: Option<u32>,
    next: Option<LinkNo>,
    // The steps in which links were entered, and behind them the links that are still ahead.
    path: Vec<u32>,
    // How many links are entered.
    entered: usize,
    arrival: Option<u32>,
}

impl Model for Rider {
    ghost use Rattle.dta_model.specs.Riders.{RiderState};
    ghost use Rattle.link_queues.specs.RidersInside.{rider_state, IsSoundRider};

    ghost Value = { RiderState };

    ghost view = { rider_state };

    ghost invariant = { IsSoundRider };
}

// Puts the numbers of links last in a list that has room for them.
fn put_links(path: &mut Vec<u32>, links: &[LinkNo])
    requires { vec_len path.old + length links.now ≤ vec_capacity path.old }
    ensures items { path.new.items ≡ path.old.items ++ link_numbers links.now }
    ensures room { vec_capacity path.new ≡ vec_capacity path.old }
{
    for place in 0..links.len() {
        path.push_reserved(links[place].0);
    }
}

// The link at a place of a path.
fn link_at(path: &[u32], place: usize) -> Option<LinkNo>
    ensures { option_map (λ link. link.0) result ≡ slice_get path.now place }
{
    if place < path.len() {
        Some(LinkNo(path[place]))
    } else {
        None
    }
}

impl Rider {
    /// A rider who has entered no link. The route is copied: the step of an entry takes the place
    /// of the link.
    pub fn new(
        alloc: Global,
        number: u32,
        departure: u32,
        route: &Route,
    ) -> Result<Self, AllocError>
        ensures { IfOk result
            (λ rider. rider ≡ setting_out number departure (link_numbers route.now)) }
    {
        let links = route.as_slice();
        let mut path = Vec::with_capacity(alloc, links.len())?;
        put_links(&mut path, links);
        Ok(Rider {
            number,
            departure,
            last: None,
            next: links.first().copied(),
            path,
            entered: 0,
            arrival: None,
        })
    }

    /// The vehicle's number.
    pub fn number(&self) -> u32
        ensures { result ≡ self.now.number }
    {
        self.number
    }

    /// The step of departure.
    pub fn departure(&self) -> u32
        ensures { result ≡ self.now.departure }
    {
        self.departure
    }

    /// The first link that is ahead, and `None` exactly where all are entered. A rider who has one
    /// hasn't arrived.
    pub fn next_link(&self) -> Option<LinkNo>
        ensures link { option_map (λ link. link.0) result ≡ slice_get self.now.ahead 0 }
        ensures none { IsNone result ↔ (self.now.ahead ≡ []) }
        ensures under_way { IsSome result → self.now.arrival ≡ None }
    {
        self.next
    }

    /// The step of the last entry, and `None` exactly where no link is entered.
    #[tactic(auto, using(crate::proofs::LastFacts::none_last, crate::proofs::LastFacts::no_last))]
    pub fn last_entry(&self) -> Option<u32>
        ensures step { result ≡ last_or None self.now.entries }
        ensures none { IsNone result ↔ (self.now.entries ≡ []) }
    {
        self.last
    }

    /// The entry steps and the step of arrival, given away.
    pub fn journey(self) -> Journey
        ensures entries { result.entries ≡ self.entries }
        ensures arrival { result.arrival ≡ self.arrival }
    {
        let mut entries = self.path;
        entries.truncate(self.entered);
        Journey {
            entries: Steps::of(entries),
            arrival: self.arrival,
        }
    }

    // Notes a step as that of the next entry, or of the arrival where all links are entered.
    pub(crate) fn note(&mut self, step: u32)
        requires { self.old.arrival ≡ None }
        ensures { self.new ≡ moved self.old step }
    {
        if self.next.is_some() {
            self.enter(step);
        } else {
            self.arrival = Some(step);
        }
    }

    // Notes a step as that of the next entry, in the place of the link.
    fn enter(&mut self, step: u32)
        requires { self.old.ahead ≢ [] }
        ensures { self.new ≡ moved self.old step }
    {
        self.path[self.entered] = step;
        self.entered += 1;
        self.next = link_at(&self.path, self.entered);
        self.last = Some(step);
    }
}
