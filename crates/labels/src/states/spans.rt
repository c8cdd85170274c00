// What ways on take in the steps of a bucket.
ghost use Rattle.std.specs.Prelude.{◌≡◌, ◌≢◌, ◌+◌, ◌/◌, ◌%◌, ◌^◌, ◌<◌, ◌≤◌, length, All};
ghost use Rattle.std.specs.Prelude.{true, false, OnOk};
ghost use Rattle.dta_model.specs.LinkTimes.{bucket_count};
ghost use Rattle.labels.specs.Filling.Rests.{span};
ghost use Rattle.labels.specs.States.Spans.{AreMoving, AreSpansBut, IsSpans, IsStill};
ghost use Rattle.trip_costs.specs.WalkCosts.{AreTimed, steps_in, table_in};

use crate::states::onward::Onward;
use crate::states::router::Router;
use net_core::{LinkNo, Memory};
use trip_costs::WalkCosts;

/// What a way on takes in the steps of a bucket, and the state that it leads to.
#[derive(Clone, Copy, Drop)]
pub(crate) struct Span {
    pub(crate) time: u64,
    pub(crate) to: u32,
}

/// The steps until the link of a way on has ended.
pub(crate) fn span_of(costs: WalkCosts, step: u64, way: &Onward) -> u64
    requires timed { AreTimed costs }
    requires link { way.now.link < length (table_in costs).free }
    requires step { step < 2 ^ 63 }
    ensures is { result ≡ span (steps_in costs.entry) step way.now }
    ensures some { 0 < result }
    ensures short { result < 2 ^ 33 }
{
    let wait = way.wait as u64;
    wait + costs.steps(LinkNo(way.link), step + wait) as u64
}

// Writes what each way on takes at a step.
#[tactic(auto, using(crate::proofs::OfStates::SpanFacts::IsSpansTo_more))]
fn refresh(spans: &mut [Span], costs: WalkCosts, step: u32, router: &Router)
    requires links { length router.now.states.items ≡ length (table_in costs).free }
    requires timed { AreTimed costs }
    requires many { length spans.old ≡ length router.now.ways.items }
    ensures { IsSpans (steps_in costs.entry) step router.now.ways.items spans.new }
{
    for place in 0..router.ways.len() {
        let way = router.ways[place];
        spans[place] = Span {
            time: span_of(costs, step as u64, &way),
            to: way.to,
        };
    }
}

// Whether a step is the last of its bucket, or the last before the horizon.
fn is_last(costs: WalkCosts, step: u32) -> bool
    requires { step < (table_in costs).horizon }
    ensures before { result ≡ false → step + 1 < (table_in costs.entry).horizon }
    ensures within { result ≡ false → (step + 1) % (table_in costs.entry).bucket ≢ 0 }
    ensures bucket { 0 < (table_in costs.entry).bucket }
{
    let next = step as u64 + 1;
    next % costs.times().bucket_steps() as u64 == 0 || next >= costs.horizon() as u64
}

// Whether a way on takes as many steps in each step of a bucket.
fn is_still(costs: WalkCosts, bucket: u32, way: &Onward) -> bool
    requires link { way.now.link < length (table_in costs).free }
    requires bucket { bucket < bucket_count (table_in costs) }
    ensures { result ≡ true → IsStill costs.entry bucket way.now }
{
    way.wait == 0 && costs.is_level(LinkNo(way.link), bucket)
}

// Lists anew the ways on that wait, or whose link may take other steps from step to step of a
// bucket.
fn list_moving(
    moving: &mut Vec<usize>,
    costs: WalkCosts,
    bucket: u32,
    router: &Router,
) -> Result<(), Memory>
    requires links { length router.now.states.items ≡ length (table_in costs).free }
    requires bucket { bucket < bucket_count (table_in costs) }
    ensures { OnOk result (AreMoving costs.entry bucket router.now.ways.items moving.new.items) }
{
    moving.clear();
    for place in 0..router.ways.len() {
        if !is_still(costs, bucket, &router.ways[place]) {
            moving.push(place)?;
        }
    }
    Ok(())
}

// Writes what the listed ways on take at a step, where what the others take is there already.
fn refresh_listed(
    spans: &mut [Span],
    places: &[usize],
    costs: WalkCosts,
    step: u32,
    router: &Router,
)
    requires links { length router.now.states.items ≡ length (table_in costs).free }
    requires timed { AreTimed costs }
    requires inside { All (λ k. k < length router.now.ways.items) places.now }
    requires others { AreSpansBut (steps_in costs) step router.now.ways.items
        places.now spans.old }
    ensures { IsSpans (steps_in costs.entry) step router.now.ways.items spans.new }
{
    for turn in 0..places.len() {
        let place = places[turn];
        let way = router.ways[place];
        spans[place] = Span {
            time: span_of(costs, step as u64, &way),
            to: way.to,
        };
    }
}

/// Writes what each way on takes at a step. At the last step of a bucket all are written, and
/// those are listed that may take other steps within it. At its other steps only those that are
/// listed are written.
pub(crate) fn keep(
    spans: &mut [Span],
    moving: &mut Vec<usize>,
    costs: WalkCosts,
    step: u32,
    router: &Router,
) -> Result<(), Memory>
    requires step { step < (table_in costs).horizon }
    requires links { length router.now.states.items ≡ length (table_in costs).free }
    requires timed { AreTimed costs }
    requires many { length spans.old ≡ length router.now.ways.items }
    requires next { step + 1 < (table_in costs).horizon
        → IsSpans (steps_in costs) (step + 1) router.now.ways.items spans.old }
    requires moving { step + 1 < (table_in costs).horizon → AreMoving costs
        ((step + 1) / (table_in costs).bucket) router.now.ways.items moving.old.items }
    ensures spans { OnOk result
        (IsSpans (steps_in costs.entry) step router.now.ways.items spans.new) }
    ensures moving { OnOk result (AreMoving costs.entry (step / (table_in costs.entry).bucket)
        router.now.ways.items moving.new.items) }
{
    if is_last(costs, step) {
        refresh(spans, costs, step, router);
        return list_moving(moving, costs, step / costs.times().bucket_steps(), router);
    }
    refresh_listed(spans, moving.as_slice(), costs, step, router);
    Ok(())
}
