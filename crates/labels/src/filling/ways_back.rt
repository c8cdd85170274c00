// Ways on, told from where they lead.
ghost use Rattle.std.specs.Prelude.{◌≡◌, ◌+◌, ◌<◌, ◌≤◌, ◌++◌, ◌∷◌, [], All, length, slice_index};
ghost use Rattle.std.specs.Prelude.{slice_set, IfOk, OnOk};
ghost use Rattle.labels.specs.Filling.WaysBack.{AreWaysBack, still_span};

use crate::states::onward::Onward;
use crate::states::router::Router;
use net_core::Memory;
use std::alloc::Global;

/// A way on, told from where it leads: the states that it leaves and that it leads to, the steps
/// that it takes where link times stand still, and how many ways back before it hold all that lead
/// to the same state, the last of which does.
#[derive(Clone, Copy, Drop)]
pub(crate) struct WayBack {
    pub(crate) from: usize,
    pub(crate) to: u32,
    pub(crate) span: u64,
    pub(crate) before: usize,
}

/// The ways back of a router, and for each state how many of them hold all that lead to it.
#[derive(Drop)]
pub(crate) struct WaysBack {
    pub(crate) ways: Vec<WayBack>,
    pub(crate) lasts: Vec<usize>,
}

// Adds a way on of a state.
fn add_way(
    ways: &mut Vec<WayBack>,
    lasts: &mut [usize],
    free: &[u32],
    from: usize,
    way: &Onward,
) -> Result<(), Memory>
    requires to { way.now.to < length lasts.old }
    requires link { way.now.link < length free.now }
    ensures ways { OnOk result (ways.new.items ≡ ways.old.items ++ record {
      from = from;
      to = way.now.to;
      span = still_span free.now way.now;
      before = slice_index lasts.old way.now.to;
    } ∷ []) }
    ensures lasts { OnOk result
        (lasts.new ≡ slice_set lasts.old way.now.to (length ways.new.items)) }
{
    let to = way.to as usize;
    ways.push(WayBack {
        from,
        to: way.to,
        span: way.wait as u64 + free[way.link as usize] as u64,
        before: lasts[to],
    })?;
    lasts[to] = ways.len();
    Ok(())
}

// Adds the ways on of a state.
fn add_state(
    ways: &mut Vec<WayBack>,
    lasts: &mut [usize],
    free: &[u32],
    router: &Router,
    state: usize,
) -> Result<(), Memory>
    requires links { length router.now.states.items ≡ length free.now }
    requires short { All (λ x. x ≤ 4294967295) free.now }
    requires state { state < length router.now.zones.items }
    requires before { AreWaysBack router.now free.now ways.old.items lasts.old state 0 }
    ensures { OnOk result
        (AreWaysBack router.now free.now ways.new.items lasts.new (state + 1) 0) }
{
    for way in router.ways_on(state) {
        add_way(ways, lasts, free, state, way)?;
    }
    Ok(())
}

/// The ways back of a router, where link times stand still.
#[tactic(auto, using(crate::proofs::OfFilling::WaysBackFacts::AreWaysBack_none))]
pub(crate) fn ways_back(alloc: Global, router: &Router, free: &[u32]) -> Result<WaysBack, Memory>
    requires links { length router.now.states.items ≡ length free.now }
    requires short { All (λ x. x ≤ 4294967295) free.now }
    ensures { IfOk result (λ back. AreWaysBack router.now free.now back.ways.items back.lasts.items
        (length router.now.zones.items) 0) }
{
    let states = router.state_count();
    let mut ways = Vec::with_capacity(alloc, router.ways.len())?;
    let mut lasts = Vec::from_elem(alloc, 0usize, states)?;
    for state in 0..states {
        add_state(&mut ways, lasts.as_mut_slice(), free, router, state)?;
    }
    Ok(WaysBack { ways, lasts })
}
