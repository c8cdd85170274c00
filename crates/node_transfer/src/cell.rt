// A node's cell.
ghost use Rattle.dta_model.specs.Loading.{trace_after};
ghost use Rattle.dta_model.specs.Plans.{ins};
ghost use Rattle.dta_model.specs.State.{count_on};
ghost use Rattle.dta_model.specs.declared.plan.Plan.{Plan};
ghost use Rattle.node_transfer.specs.Places.{changed_at, in_mail, out_mail, with_in_mail};
ghost use Rattle.node_transfer.specs.Places.{with_out_mail};
ghost use Rattle.cell_stages.specs.Contents.{IsStep, away, batch_of, cell_after, cell_before};
ghost use Rattle.cell_stages.specs.Contents.{room_of};
ghost use Rattle.node_transfer.specs.Counts.{counts_at};
ghost use Rattle.node_transfer.specs.Exchange.{IsKept, is_room};
ghost use Rattle.node_transfer.specs.Gathered.{grown_by, mail_line, room_on, room_told};
ghost use Rattle.node_transfer.specs.Hand.{Within, handed, riders_in};
ghost use Rattle.dta_model.specs.Sound.{IsSound};
ghost use Rattle.node_transfer.specs.Rest.{IsQuiet};
ghost use Rattle.node_transfer.specs.declared.rest.TheConstants.{NO_STEP};
ghost use Rattle.std.specs.Prelude.{◌≡◌, ℕ, suc, ◌<◌, ◌≤◌, [], All, length, slice_get, IfOk};
ghost use Rattle.std.specs.Prelude.{IfSome, IsSome, IsSomeAnd, Some, ◌+◌, true};
ghost use Rattle.link_queues.specs.declared.line.TheConstants.{MOST_RIDERS};
ghost use Rattle.dta_model.specs.declared.loading.TheConstants.{MOST_HORIZON};

use crate::counts::count_parts;
use crate::hand_over::hand_parts;
use crate::mail::{copy_room, give_batch, put_in_mail, put_out_mail, swap_in_mail, swap_out_mail};
use crate::rest::first_step;
use crate::step::in_link::{gather_at, gather_links, room_left};
use crate::step::transfer::transfer_links;
use cell_stages::{InLink, Mail, OutLink};
use dta_model::Loaded;
use link_queues::Line;
use net_core::Memory;
use std::alloc::Global;
use std::marker::Model;

/// How many vehicles of a cell wait, run and have arrived.
#[derive(Clone, Copy, Drop)]
pub struct CellCounts {
    pub waiting: u64,
    pub running: u64,
    pub arrived: u64,
}

/// One node's links and riders. It is one pointer to move.
#[derive(Drop)]
pub struct NodeCell {
    parts: Box<Parts>,
}

// What a cell holds.
#[derive(Drop)]
struct Parts {
    ins: Vec<InLink>,
    outs: Vec<OutLink>,
    arrived: Line,
}

impl Model for NodeCell {
    ghost use Rattle.cell_stages.specs.CellState.{CellState};

    ghost Value = { CellState };

    ghost view = { λ c. record {
      ins = c.parts.value.ins.items;
      outs = c.parts.value.outs.items;
      arrived = c.parts.value.arrived;
    } };
}

impl NodeCell {
    // A cell of these links, where nobody has arrived.
    pub(crate) fn of(alloc: Global, ins: Vec<InLink>, outs: Vec<OutLink>) -> Result<Self, Memory>
        ensures { IfOk result
            (λ cell. cell ≡ record { ins = ins.items; outs = outs.items; arrived = [] }) }
    {
        let arrived = Line::new(alloc);
        let parts = Box::new(alloc, Parts { ins, outs, arrived })?;
        Ok(NodeCell { parts })
    }

    /// Moves the vehicles of a step. The mail of each out-link tells the room of that step, and
    /// becomes the batch of it where somebody enters the link.
    pub fn transfer(&mut self, step: u32)
        requires { (p : Plan) × (n : ℕ) × IsStep p n step
            × (self.old ≡ cell_before p n step away (room_of p step)) }
        ensures { (p : Plan) (n : ℕ) → IsStep p n step
            → self.old ≡ cell_before p n step away (room_of p step)
            → self.new ≡ cell_after p n step away (batch_of p step) }
    {
        let parts = &mut *self.parts;
        transfer_links(&mut parts.ins, &mut parts.outs, &mut parts.arrived, step);
    }

    /// Puts those who come in a step last on their links. The mail of each in-link is the batch of
    /// that step where somebody comes, and tells the room of the next one then.
    pub fn gather(&mut self, step: u32)
        requires { (p : Plan) × (n : ℕ) × IsStep p n step
            × (self.old ≡ cell_after p n step (batch_of p step) away) }
        ensures { (p : Plan) (n : ℕ) → IsStep p n step
            → self.old ≡ cell_after p n step (batch_of p step) away
            → self.new ≡ cell_before p n (suc step) (room_of p (suc step)) away }
    {
        gather_links(&mut self.parts.ins, step);
    }

    /// The first step in which somebody of the cell is ready, unless somebody comes: the head of
    /// an in-link has been on it for long enough, or one who waits is due. It is 0 where somebody
    /// left an in-link in the last steps, so that its room may grow, and [`NO_STEP`] where nobody
    /// ever is ready.
    pub fn next_step(&self) -> u32
        ensures quiet { (step : ℕ) → step < result → IsQuiet step self.now }
        ensures least { result < NO_STEP → IsQuiet result self.now → ⊥ }
    {
        let parts = &*self.parts;
        first_step(&parts.ins, &parts.outs)
    }

    /// Fills the place of an out-link's mail.
    pub fn take_out(&mut self, place: usize, mail: Mail)
        requires there { place < length self.old.outs }
        requires away { out_mail place self.old ≡ Some Mail.Away }
        ensures { self.new ≡ with_out_mail place mail self.old }
    {
        put_out_mail(&mut self.parts.outs, place, mail);
    }

    /// Fills the place of an in-link's mail.
    pub fn take_in(&mut self, place: usize, mail: Mail)
        requires there { place < length self.old.ins }
        requires away { in_mail place self.old ≡ Some Mail.Away }
        ensures { self.new ≡ with_in_mail place mail self.old }
    {
        put_in_mail(&mut self.parts.ins, place, mail);
    }

    /// Takes out the mail of an out-link.
    pub fn give_out(&mut self, place: usize) -> Mail
        requires { place < length self.old.outs }
        ensures mail { out_mail place self.old ≡ Some result }
        ensures away { self.new ≡ with_out_mail place Mail.Away self.old }
    {
        swap_out_mail(&mut self.parts.outs, place)
    }

    /// Takes out the mail of an in-link.
    pub fn give_in(&mut self, place: usize) -> Mail
        requires { place < length self.old.ins }
        ensures mail { in_mail place self.old ≡ Some result }
        ensures away { self.new ≡ with_in_mail place Mail.Away self.old }
    {
        swap_in_mail(&mut self.parts.ins, place)
    }

    /// Tells an out-link the room that a mail tells, which stays where it is.
    pub fn tell_room(&mut self, place: usize, mail: &Mail)
        requires there { IsSome (out_mail place self.old) }
        requires room { is_room mail.now ≡ true }
        ensures { self.new ≡ with_out_mail place mail.now self.old }
    {
        copy_room(&mut self.parts.outs, place, mail);
    }

    /// Writes the batch of an out-link over its mail, which tells its room, where somebody enters.
    pub fn send_batch(&mut self, place: usize, mail: &mut Mail)
        requires { IsSomeAnd (out_mail place self.old) (λ there. IsKept there mail.old) }
        ensures mail { out_mail place self.old ≡ Some mail.new }
        ensures away { self.new ≡ with_out_mail place Mail.Away self.old }
    {
        give_batch(&mut self.parts.outs, place, mail);
    }

    /// Puts those who come with a mail in a step last on an in-link, and tells there the room of
    /// the next step.
    pub fn gather_link(&mut self, place: usize, mail: &mut Mail, step: u32)
        requires step { step < MOST_HORIZON }
        requires fits { IsSomeAnd (slice_get self.old.ins place)
            (λ link. length link.line + length (mail_line mail.old) ≤ MOST_RIDERS) }
        ensures link { self.new ≡ record self.old {
          ins = changed_at (grown_by mail.old) place self.old.ins;
        } }
        ensures mail { IfSome (slice_get self.old.ins place)
            (λ link. mail.new ≡ room_told step mail.old link) }
    {
        gather_at(&mut self.parts.ins, place, mail, step);
    }

    /// The room that the in-link of a place leaves; there is none where it has no bound.
    pub fn room(&self, place: usize) -> Option<u32>
        requires { place < length self.now.ins }
        ensures { IfSome (slice_get self.now.ins place) (λ link. result ≡ room_on link) }
    {
        let link = &self.parts.ins[place];
        room_left(&link.line, &link.left, link.storage)
    }

    /// How many vehicles are on the in-link of a place.
    pub fn on_link(&self, place: usize) -> u64
        requires { place < length self.now.ins }
        ensures line { IfSome (slice_get self.now.ins place) (λ link. result ≡ length link.line) }
        // before the transfer of step t it is the number of the vehicles on that link after t
        // steps
        ensures count { (p : Plan) (n t l : ℕ)
            → self.now ≡ cell_before p n t away away → slice_get (ins p n) place ≡ Some l
            → result ≡ count_on (trace_after p t) l }
    {
        self.line_length(place)
    }

    // How many riders stand in the line of the in-link of a place.
    fn line_length(&self, place: usize) -> u64
        requires { place < length self.now.ins }
        ensures { IfSome (slice_get self.now.ins place) (λ link. result ≡ length link.line) }
    {
        self.parts.ins[place].line.len() as u64
    }

    /// How many vehicles wait for the out-links and are due, how many are on the in-links, and how
    /// many have arrived, where the cell is before the transfer of step `steps`. It looks at each
    /// link once, and at no vehicle.
    pub fn counts(&self, steps: u32) -> CellCounts
        ensures { (p : Plan) (n : ℕ) → IsSound p → n < length p.net.nodes
            → self.now ≡ cell_before p n steps away away
            → result ≡ counts_at p n steps }
    {
        let parts = &*self.parts;
        count_parts(&parts.ins, &parts.outs, &parts.arrived)
    }

    /// Sets the journey of each rider of the cell; the other journeys stay.
    pub fn hand_over(self, loaded: &mut Loaded)
        requires { All (Within (length loaded.old)) (riders_in self) }
        ensures { loaded.new ≡ handed (riders_in self) loaded.old }
    {
        let Parts {
            mut ins,
            mut outs,
            mut arrived,
            ..
        } = Box::into_inner(self.parts);
        hand_parts(&mut ins, &mut outs, &mut arrived, loaded);
    }
}
