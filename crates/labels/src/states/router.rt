// The ways on from where links end.
ghost use Rattle.std.specs.Prelude.{◌≡◌, ◌<◌, ◌≤◌, length, slice_index, All, nat_eq};
ghost use Rattle.fixed_units.specs.declared.turn.TheConstants.{MOST_PENALTY_STEPS};
ghost use Rattle.labels.specs.States.Routers.{AreWays};
ghost use Rattle.labels.specs.States.Routers.{ways_of};

use crate::states::onward::Onward;

/// The state in which each link ends, and for each state its ways on and its zone. Ways on of a
/// state stand from its start up to the next one's.
#[derive(Drop)]
pub struct Router {
    pub(crate) states: Vec<u32>,
    pub(crate) starts: Vec<usize>,
    pub(crate) ways: Vec<Onward>,
    pub(crate) zones: Vec<u32>,
    ghost inside: { AreWays states.items starts.items ways.items zones.items },
}

impl Router {
    /// The number of states.
    pub fn state_count(&self) -> usize
        ensures { result ≡ length self.now.zones.items }
    {
        self.zones.len()
    }

    /// The state in which a link ends.
    pub(crate) fn state(&self, link: u32) -> u32
        requires { link < length self.now.states.items }
        ensures is { result ≡ slice_index self.now.states.items link }
        ensures within { result < length self.now.zones.items }
    {
        self.states[link as usize]
    }

    /// The number of the zone of a state, or the one that stands for none.
    pub(crate) fn zone(&self, state: usize) -> u32
        requires { state < length self.now.zones.items }
        ensures { result ≡ slice_index self.now.zones.items state }
    {
        self.zones[state]
    }

    /// Whether a state is in a zone.
    pub(crate) fn is_in(&self, state: usize, zone: u32) -> bool
        requires { state < length self.now.zones.items }
        ensures { result ≡ nat_eq (slice_index self.now.zones.items state) zone }
    {
        self.zones[state] == zone
    }

    /// The ways on from a state.
    #[tactic(auto, using(crate::proofs::Basics::All_range))]
    pub(crate) fn ways_on(&self, state: usize) -> &[Onward]
        requires { state < length self.now.zones.items }
        ensures are { result.now ≡ ways_of self.now.starts.items self.now.ways.items state }
        ensures to { All (λ w. w.to < length self.now.zones.items) result.now }
        ensures link { All (λ w. w.link < length self.now.states.items) result.now }
        ensures wait { All (λ w. w.wait ≤ MOST_PENALTY_STEPS) result.now }
    {
        let from = self.starts[state];
        let to = self.starts[state + 1];
        &self.ways[from..to]
    }
}
