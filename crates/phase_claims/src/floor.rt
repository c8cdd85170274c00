// The floor and its calls.
ghost use Rattle.atomic_table.specs.Table.{State};
ghost use Rattle.std.specs.Prelude.{◌≡◌, ◌≢◌, ◌<◌, ◌≤◌, ◌-◌, [], suc, IfErr, IfOk, IsOk, Some};
ghost use Rattle.dta_model.specs.Lent.{plan_of};
ghost use Rattle.dta_model.specs.Machine.{first_in, open_end};
ghost use Rattle.dta_model.specs.Sound.{IsSound};
ghost use Rattle.dta_model.specs.Units.{node_count, step_of, task_of, unit_count};
ghost use Rattle.phase_claims.specs.Passes.{Claims, ClaimsChunk, HoldsNoUnit, IsHeld, IsOf, IsOpen};
ghost use Rattle.phase_claims.specs.Passes.{IsInside, IsPlace, Opens, PerformsNext, kind_at};
ghost use Rattle.phase_claims.specs.Passes.{kind_in, unit_at};
ghost use Rattle.phase_claims.specs.PlacesEnd.{IsClosed, IsEarly};
ghost use Rattle.phase_claims.specs.PlacesHeld.{IsSameSeat};
ghost use Rattle.phase_claims.specs.PlacesHome.{brought, carried, taken};
ghost use Rattle.phase_claims.specs.Running.{Holds};
ghost use Rattle.phase_claims.specs.Told.{HasOnlyTold, TellsAll};
ghost use Rattle.claim_core.specs.Kinds.{half_by};
ghost use Rattle.phase_claims.specs.Views.{at_next, beginning, done_with, joined, less_spare};
ghost use Rattle.phase_claims.specs.Views.{rights};

use crate::part::Part;
use crate::pass::{Pass, Place};
use crate::receipt::{Early, Receipt};
use crate::rule::{
    Bound, Claiming, Cut, Draw, Finish, Glue, Key, Look, PassSeat, SharedTable, Turn,
};
use crate::start::{parts_at_start, words_at_start};
use crate::unit::{Chunk, Open, Unit};
use crate::view::View;
use crate::work_close::{drop_parts, take_parts};
use crate::work_posting::post_held;
use crate::work_told::{rests, tell_all};
use crate::work_unit::work_held;
use atomic_table::{Table, TableRule};
use claim_core::{UnitKind, Units};
use dta_model::{Loaded, Loading, MOST_CHUNK, Stage};
use monitors::{Board, WriterPass};
use net_core::Memory;
use node_transfer::{Half, HalfStep, opening};
use std::alloc::{AllocError, Global};
use std::marker::Model;
use std::sync::Wait;

/// The most passes that a floor can have.
pub const MOST_PASSES: u32 = 64;

// The word that never changes, so far behind those that do that it lies in another line of memory:
// to read it takes no longer than to read what only one processor has.
const STILL_WORD: usize = 16;

/// The units of a loading, with the words that count how many are claimed and finished. To a
/// contract it is its table, and what it is for.
#[derive(Drop)]
pub struct Floor<'a> {
    table: SharedTable<'a>,
    loading: Loading<'a>,
    board: &'a Board,
    units: Units,
    passes: u32,
    loaded: Loaded,
}

impl<'a> Model for Floor<'a> {
    ghost use Rattle.dta_model.specs.Lent.{plan_of};
    ghost use Rattle.phase_claims.specs.Floors.{IsFloor};
    ghost use Rattle.phase_claims.specs.Passes.{FloorState};
    ghost use Rattle.phase_claims.specs.Scopes.{scope_of};

    ghost Value = { FloorState };

    ghost view = { λ f. record {
      table = f.table.shared.table_id;
      scope = scope_of f.table.shared.key;
    } };

    ghost invariant = { λ f. IsFloor (scope_of f.table.shared.key) f.table.shared.table_id.words
        f.table.shared.table_id.slots (plan_of f.loading) f.board.now f.units f.passes f.loaded };
}

impl<'a> Floor<'a> {
    /// A floor of a loading, with nothing claimed, and its first pass, from which the others can
    /// be split off. Where there isn't enough memory the writer is dropped.
    pub fn new<'l: 'a>(
        alloc: Global,
        loading: &Loading<'l>,
        board: &'a Board,
        writer: WriterPass,
        passes: u32,
    ) -> Result<(Floor<'a>, Pass), Memory>
        requires sound { IsSound (plan_of loading.now) }
        requires own { writer.board ≡ board.now }
        requires new { writer.list ≡ [] }
        requires least { 1 ≤ passes }
        requires most { passes ≤ MOST_PASSES }
        ensures floor { IfOk result (λ r. r.0.scope ≡ record {
          plan = plan_of loading.now;
          board = board.entry.now;
          passes = passes;
        }) }
        ensures table { IfOk result (λ r. r.1.table ≡ r.0.table) }
        ensures pass { IfOk result (λ r. r.1.view ≡ beginning r.0.scope (passes - 1)) }
    {
        let start = opening(alloc, loading)?;
        let cells = start.cells.into_vec();
        let parts = parts_at_start(alloc, cells, start.mail.into_vec(), writer)?;
        let key = Key {
            loading: *loading,
            board,
            passes,
        };
        let units = Units::of(loading);
        let words = words_at_start(alloc, units.nodes)?;
        let (table, seat) = match Table::new(alloc, &words, parts, &key) {
            Ok(made) => made,
            Err(_) => return Err(AllocError),
        };
        let floor = Floor {
            table,
            loading: *loading,
            board,
            units,
            passes,
            loaded: start.loaded,
        };
        let pass = Pass {
            seat,
            spare: passes - 1,
            place: Place::none(),
        };
        Ok((floor, pass))
    }

    /// The table of its words, its places and the views of its passes. Its rule, which holds
    /// between any two steps whatever the threads do, is the running rule of the floor.
    pub fn table(&self) -> &SharedTable<'a>
        ensures own { result.now.shared.table_id ≡ self.now.table }
        ensures rule { (s : State Part View)
            → ⟦<Claiming as TableRule<Part, View, Key<'a>>>⟧.holds result.now.shared.key s
            → Holds self.now.scope s }
    {
        &self.table
    }

    // How many units there are.
    #[tactic(auto, unfolding(dta_model::specs::Units::unit_count))]
    fn count(&self) -> u64
        ensures { result ≡ unit_count self.now.scope.plan }
    {
        self.units.count()
    }

    /// Whether the unit of the next number could be opened at once, or there is none. It only
    /// looks, and other passes may change that at any time, so nothing is promised. Where there is
    /// one pass it needn't even look.
    pub fn can_open_next(&self) -> bool {
        if self.passes == 1 {
            return true;
        }
        let next = self.table.shared.peek(1);
        self.count() <= next || self.units.phase_start(next) <= self.table.shared.peek(2)
    }

    /// How many units have not been drawn. It only looks, and other passes may draw at any time, so
    /// nothing is promised.
    pub fn left(&self) -> u64 {
        self.count().saturating_sub(self.table.shared.peek(1))
    }

    /// How many nodes its network has.
    pub fn node_count(&self) -> u32
        ensures { result ≡ node_count self.now.scope.plan }
    {
        self.units.nodes
    }

    /// How many passes there may be.
    pub fn pass_count(&self) -> u32
        ensures { result ≡ self.now.scope.passes }
    {
        self.passes
    }

    /// Draws the next number. The pass holds the unit of that number then. Where there is none it
    /// has ended.
    #[tactic(auto, unfolding(dta_model::specs::Units::unit_count))]
    pub fn claim(&self, pass: &mut Pass) -> Option<Unit>
        requires own { IsOf self.now pass.old }
        requires idle { pass.old.view.stage ≡ Stage.Idle }
        ensures table { pass.new.table ≡ pass.old.table }
        ensures told { Claims self.now.scope.plan pass.old.view result pass.new.view }
    {
        let Chunk { first, end: _ } = self.claim_chunk(pass, 1)?;
        let phase = pass.place.phase;
        Some(Unit {
            number: first,
            step: phase.step,
            kind: self.units.kind_in(phase, first),
        })
    }

    /// Draws the next numbers, as many as are asked for, by one addition. The pass holds those of
    /// units then. Where there are none it has ended.
    #[tactic(auto, unfolding(dta_model::specs::Units::unit_count))]
    pub fn claim_chunk(&self, pass: &mut Pass, many: u32) -> Option<Chunk>
        requires own { IsOf self.now pass.old }
        requires idle { pass.old.view.stage ≡ Stage.Idle }
        requires least { 1 ≤ many }
        requires most { many ≤ MOST_CHUNK }
        ensures table { pass.new.table ≡ pass.old.table }
        ensures told { ClaimsChunk self.now.scope.plan pass.old.view many result pass.new.view }
    {
        let many = many as u64;
        let first = self.table.shared.fetch_add::<Draw>(&mut pass.seat, 1, many);
        let count = self.count();
        if first >= count {
            pass.place.stage = Stage::Ended;
            return None;
        }
        let end = (first + many).min(count);
        pass.place.stage = Stage::Held(first, end);
        pass.place.phase = self.units.phase_from(pass.place.phase, first);
        Some(Chunk { first, end })
    }

    /// Opens the units that the pass holds, up to the end of the first one's phase, where all units
    /// of earlier phases are finished.
    pub fn open(&self, pass: &mut Pass) -> Open
        requires own { IsOf self.now pass.old }
        requires held { IsHeld pass.old.view.stage }
        ensures table { pass.new.table ≡ pass.old.table }
        ensures told { Opens pass.old.view result pass.new.view }
        ensures alone { rights pass.old.view ≡ self.now.scope.passes → result ≡ Open.Yes }
    {
        let Stage::Held(first, end) = pass.place.stage else {
            unreachable!()
        };
        let phase = pass.place.phase;
        let finished = self.table.shared.load::<Look>(&mut pass.seat, 2);
        if phase.first <= finished {
            pass.place.stage = Stage::Open(first, end.min(phase.end), end);
            pass.place.next = first;
            Open::Yes
        } else {
            Open::NotYet { finished }
        }
    }

    /// The unit that the pass is at, of those that it has open: the next one to be performed.
    pub fn next_unit(&self, pass: &Pass) -> Unit
        requires own { IsOf self.now pass.now }
        requires open { IsOpen pass.now.view.stage }
        ensures { result ≡ unit_at self.now.scope.plan pass.now.view.at }
    {
        let Place { next, phase, .. } = pass.place;
        Unit {
            number: next,
            step: phase.step,
            kind: self.units.kind_in(phase, next),
        }
    }

    // Does the work of a half of a node's step, on the places that a seat has for it. Where that
    // changes nothing these stay as they are.
    #[tactic(auto, unfolding(dta_model::specs::Units::unit_count))]
    fn do_half(&self, seat: &mut PassSeat, half: HalfStep)
        requires table { seat.old.table_id ≡ self.now.table }
        requires scope { seat.old.me.0.scope ≡ self.now.scope }
        requires open { IsOpen seat.old.me.0.stage }
        requires weight { 1 ≤ seat.old.me.0.weight }
        requires inside { seat.old.me.0.at < unit_count seat.old.me.0.scope.plan }
        requires unit { half_by (step_of (node_count seat.old.me.0.scope.plan) seat.old.me.0.at)
            (task_of (node_count seat.old.me.0.scope.plan) seat.old.me.0.at) ≡ Some half }
        requires held { seat.old.me.1 ≡ taken seat.old.me.0.scope seat.old.me.0.at }
        ensures seat { HasOnlyTold seat.old seat.new }
        ensures told { TellsAll seat.new.me.0.scope.plan seat.new.me.0.at seat.new.me.0.told }
        ensures done { seat.new.me.1 ≡ brought seat.new.me.0.scope seat.new.me.0.at }
    {
        if rests(&self.table.shared, seat, half) {
            return;
        }
        work_held(&self.table.shared, seat, &self.loading, half);
        match half.half {
            Half::Transfer => tell_all(&self.table.shared, seat, &self.loading, half),
            Half::Gather => (),
        }
    }

    // Does the work of a posting, on the places that a seat has for it.
    #[tactic(auto, unfolding(dta_model::specs::Units::unit_count))]
    fn do_posting<R: Wait>(&self, rt: &R, seat: &mut PassSeat, number: u64)
        requires table { seat.old.table_id ≡ self.now.table }
        requires scope { seat.old.me.0.scope ≡ self.now.scope }
        requires at { number ≡ seat.old.me.0.at }
        requires number { number < unit_count self.now.scope.plan }
        requires kind { kind_at self.now.scope.plan number ≡ UnitKind.Posting }
        requires held { seat.old.me.1 ≡ taken self.now.scope number }
        ensures seat { IsSameSeat seat.old seat.new }
        ensures told { TellsAll seat.new.me.0.scope.plan seat.new.me.0.at seat.new.me.0.told }
        ensures done { seat.new.me.1 ≡ brought self.now.scope number }
    {
        let step = self.units.step_of(number);
        post_held(
            rt,
            &self.table.shared,
            seat,
            &self.loading,
            self.board,
            step,
        );
    }

    // Brings the places of the unit that a seat is at home, once its work is done, and takes those
    // of the next open one.
    fn turn(&self, seat: &mut PassSeat)
        requires table { seat.old.table_id ≡ self.now.table }
        requires open { IsOpen seat.old.me.0.stage }
        requires weight { 1 ≤ seat.old.me.0.weight }
        requires more { suc seat.old.me.0.at < open_end seat.old.me.0.stage }
        requires done { seat.old.me.1 ≡ brought seat.old.me.0.scope seat.old.me.0.at }
        requires told { TellsAll seat.old.me.0.scope.plan seat.old.me.0.at seat.old.me.0.told }
        ensures table { seat.new.table_id ≡ seat.old.table_id }
        ensures done { seat.new.me ≡ (
          at_next seat.old.me.0,
          taken seat.old.me.0.scope (suc seat.old.me.0.at),
        ) }
    {
        self.table.shared.load::<Turn>(seat, STILL_WORD);
    }

    // Finishes the units that a seat has open, once the work of the last one is done: its places
    // come home, and one addition tells of all.
    fn finish(&self, seat: &mut PassSeat, many: u64)
        requires table { seat.old.table_id ≡ self.now.table }
        requires open { IsOpen seat.old.me.0.stage }
        requires weight { 1 ≤ seat.old.me.0.weight }
        requires last { suc seat.old.me.0.at ≡ open_end seat.old.me.0.stage }
        requires all { many ≡ open_end seat.old.me.0.stage - first_in seat.old.me.0.stage }
        requires done { seat.old.me.1 ≡ brought seat.old.me.0.scope seat.old.me.0.at }
        requires told { TellsAll seat.old.me.0.scope.plan seat.old.me.0.at seat.old.me.0.told }
        ensures table { seat.new.table_id ≡ seat.old.table_id }
        ensures done { seat.new.me ≡ (done_with seat.old.me.0, []) }
    {
        self.table.shared.fetch_add::<Finish>(seat, 2, many);
    }

    // Goes on once the work of the unit is done that a seat is at: to the next open one or, with
    // the last one, to what is left of the chunk.
    #[tactic(auto, unfolding(dta_model::specs::Units::unit_count))]
    fn go_on(&self, seat: &mut PassSeat, place: &mut Place)
        requires table { seat.old.table_id ≡ self.now.table }
        requires scope { seat.old.me.0.scope ≡ self.now.scope }
        requires open { IsOpen seat.old.me.0.stage }
        requires inside { IsInside seat.old.me.0.scope.plan seat.old.me.0.stage seat.old.me.0.at }
        requires weight { 1 ≤ seat.old.me.0.weight }
        requires place { IsPlace seat.old.me.0 place.old }
        requires done { seat.old.me.1 ≡ brought seat.old.me.0.scope seat.old.me.0.at }
        requires told { TellsAll seat.old.me.0.scope.plan seat.old.me.0.at seat.old.me.0.told }
        ensures table { seat.new.table_id ≡ seat.old.table_id }
        ensures next { PerformsNext seat.old.me.0 seat.new.me.0 }
        ensures slots { seat.new.me.1
            ≡ carried seat.new.me.0.scope seat.new.me.0.stage seat.new.me.0.at }
        ensures place { IsPlace seat.new.me.0 place.new }
    {
        let Stage::Open(first, middle, end) = place.stage else {
            unreachable!()
        };
        let next = place.next + 1;
        if next < middle {
            self.turn(seat);
            place.next = next;
            return;
        }
        self.finish(seat, middle - first);
        if middle < end {
            place.stage = Stage::Held(middle, end);
            place.phase = self.units.phase_from(place.phase, middle);
        } else {
            place.stage = Stage::Idle;
        }
    }

    /// Performs the unit that the pass is at, a transfer or a gather: does its work on its parts
    /// and brings them home. With the last open one it finishes them all.
    pub fn perform(&self, pass: &mut Pass)
        requires own { IsOf self.now pass.old }
        requires open { IsOpen pass.old.view.stage }
        requires kind { kind_in pass.old.view ≢ UnitKind.Posting }
        ensures table { pass.new.table ≡ pass.old.table }
        ensures done { PerformsNext pass.old.view pass.new.view }
    {
        let Place { next, phase, .. } = pass.place;
        let Some(half) = self.units.half_in(phase, next) else {
            unreachable!()
        };
        self.do_half(&mut pass.seat, half);
        self.go_on(&mut pass.seat, &mut pass.place);
    }

    /// Performs the unit that the pass is at, a posting: counts the cells, posts the state to the
    /// floor's board and finishes it.
    pub fn perform_posting<R: Wait>(&self, rt: &R, pass: &mut Pass)
        requires own { IsOf self.now pass.old }
        requires open { IsOpen pass.old.view.stage }
        requires kind { kind_in pass.old.view ≡ UnitKind.Posting }
        ensures table { pass.new.table ≡ pass.old.table }
        ensures done { PerformsNext pass.old.view pass.new.view }
    {
        self.do_posting(rt, &mut pass.seat, pass.place.next);
        self.go_on(&mut pass.seat, &mut pass.place);
    }

    /// Splits a pass off from one that may still do so. The first of the two keeps the rest of the
    /// spare passes, and the second has none.
    pub fn split(&self, pass: Pass) -> (Pass, Pass)
        requires own { IsOf self.now pass }
        requires free { HoldsNoUnit pass.view.stage }
        requires spare { 1 ≤ pass.view.spare }
        ensures tables { (result.0.table ≡ pass.table) × (result.1.table ≡ pass.table) }
        ensures first { result.0.view ≡ less_spare pass.view }
        ensures second { result.1.view ≡ beginning pass.view.scope 0 }
    {
        let Pass {
            mut seat,
            spare,
            place,
        } = pass;
        let other = self.table.shared.split_seat::<Cut>(&mut seat);
        let first = Pass {
            seat,
            spare: spare - 1,
            place,
        };
        let second = Pass {
            seat: other,
            spare: 0,
            place: Place::none(),
        };
        (first, second)
    }

    /// Joins two passes into one, which has ended where one of them had.
    pub fn join(&self, a: Pass, b: Pass) -> Pass
        requires own { IsOf self.now a }
        requires own_too { IsOf self.now b }
        requires free { HoldsNoUnit a.view.stage }
        requires free_too { HoldsNoUnit b.view.stage }
        ensures table { result.table ≡ a.table }
        ensures view { result.view ≡ joined a.view b.view }
    {
        let Pass {
            mut seat,
            spare,
            ..
        } = a;
        let Pass {
            seat: other,
            spare: more,
            ..
        } = b;
        self.table.shared.join_seat::<Glue>(&mut seat, other);
        self.table.shared.load::<Bound>(&mut seat, 0);
        let stage = match a.place.stage {
            Stage::Ended => Stage::Ended,
            _ => b.place.stage,
        };
        Pass {
            seat,
            spare: spare + more,
            place: Place {
                stage,
                ..Place::none()
            },
        }
    }

    /// Closes the floor, with a pass into which all others were joined. Where units are left, all
    /// is dropped.
    #[tactic(auto, unfolding(dta_model::specs::Units::unit_count))]
    pub fn close(self, pass: Pass) -> Result<(Loaded, WriterPass, Receipt), Early>
        requires own { IsOf self pass }
        requires whole { rights pass.view ≡ self.scope.passes }
        requires free { HoldsNoUnit pass.view.stage }
        ensures early { IfErr result (λ e. IsEarly self.entry.scope pass.view e) }
        ensures closed { IfOk result (λ r. IsClosed self.entry.scope pass.view r.0 r.1 r.2) }
        ensures ended { pass.view.stage ≡ Stage.Ended → IsOk result }
    {
        let Floor {
            table,
            loading,
            board: _,
            units,
            passes,
            mut loaded,
        } = self;
        let Pass { seat, spare, .. } = pass;
        let closed = table.close_with(seat);
        let finished = closed.word(2);
        if finished < units.count() {
            drop_parts(closed);
            return Err(Early { finished });
        }
        let writer = take_parts(closed, &loading, &mut loaded);
        let receipt = Receipt {
            units: units.count(),
            passes: passes - spare,
            vehicles: loading.trips.len() as u32,
        };
        Ok((loaded, writer, receipt))
    }
}
