// The passes of a floor.
ghost use Rattle.claim_core.specs.Phases.{IsPhase};
ghost use Rattle.std.specs.Prelude.{◌≡◌, ℕ};
ghost use Rattle.phase_claims.specs.Passes.{IsAmongOpen};
ghost use Rattle.phase_claims.specs.PlacesHome.{carried};

use crate::rule::PassSeat;
use claim_core::Phase;
use dta_model::Stage;
use std::marker::Model;

/// The right to claim, open and perform units of a floor. To a contract it is its floor's table,
/// and what it knows.
#[derive(Drop)]
pub struct Pass {
    pub(crate) seat: PassSeat,
    pub(crate) spare: u32,
    pub(crate) place: Place,
}

// Where a pass stands in its chunk: what it holds, the unit to perform next where some are open,
// and the phase of the first number, or the last phase that it had.
#[derive(Clone, Copy, Drop)]
pub struct Place {
    pub stage: Stage,
    pub next: u64,
    pub phase: Phase,
}

impl Place {
    // Of a pass that has drawn no number yet.
    pub(crate) fn none() -> Self
        ensures stage { result.stage ≡ Stage.Idle }
        ensures next { result.next ≡ 0 }
        ensures phase { (nodes : ℕ) → IsPhase nodes result.phase }
    {
        Place {
            stage: Stage::Idle,
            next: 0,
            phase: Phase::empty(),
        }
    }
}

impl Model for Pass {
    ghost use Rattle.phase_claims.specs.Passes.{IsPass, PassState};

    ghost Value = { PassState };

    ghost view = { λ p. record { table = p.seat.table_id; view = p.seat.me.0 } };

    ghost invariant = { λ p. IsPass p.seat.me p.spare p.place };
}

impl Pass {
    /// Its seat at the floor's table. What the pass knows is the seat's view there, and the places
    /// of the unit that it is at are with the seat: so the table's rule speaks of this pass.
    pub fn seat(&self) -> &PassSeat
        ensures table { result.now.table_id ≡ self.now.table }
        ensures view { result.now.me.0 ≡ self.now.view }
        ensures places { result.now.me.1
            ≡ carried self.now.view.scope self.now.view.stage self.now.view.at }
    {
        &self.seat
    }

    /// What it has of the units.
    pub fn stage(&self) -> Stage
        ensures stage { result ≡ self.now.view.stage }
        ensures at { IsAmongOpen self.now.view.stage self.now.view.at }
    {
        self.place.stage
    }

    /// How many passes may still be split off from it.
    pub fn spare(&self) -> u32
        ensures { result ≡ self.now.view.spare }
    {
        self.spare
    }
}
