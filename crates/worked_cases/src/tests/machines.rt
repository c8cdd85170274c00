// The machine of claims, on two links in a line: three transfers, three gathers and a posting in
// each step.
ghost use Rattle.claim_core.specs.Machine.{worker_of};
ghost use Rattle.dta_model.specs.Lent.{plan_of};
ghost use Rattle.dta_model.specs.Sound.{IsSound};
ghost use Rattle.std.specs.List.{list_all};
ghost use Rattle.std.specs.Prelude.{◌≡◌, ◌≤◌, nat_lt, true};

use crate::two_links_in_a_line;
use claim_core::{Event, Machine, Outcome};
use dta_model::Loading;
use net_core::Memory;
use std::alloc::Global;
use std::test::Fail;

// Whether a loading's machine with so many workers answers each event as wanted.
fn answers(
    alloc: Global,
    loading: &Loading,
    workers: u32,
    cases: &[(Event, Outcome)],
) -> Result<bool, Memory>
    requires sound { IsSound (plan_of loading.now) }
    requires workers { 1 ≤ workers }
    requires each { list_all (λ case. nat_lt (worker_of case.0) workers) cases.now ≡ true }
{
    let mut machine = Machine::new(alloc, loading, workers)?;
    for i in 0..cases.len() {
        let (event, wanted) = cases[i];
        if machine.apply(event) != wanted {
            return Ok(false);
        }
    }
    Ok(true)
}

#[test]
fn a_unit_waits_for_the_phase_before(rt: HostRuntime) -> Result<(), Fail> {
    let case = two_links_in_a_line(rt.alloc())?;
    let cases = [
        (Event::Claim(0), Outcome::Given { number: 0 }),
        (Event::Claim(1), Outcome::Given { number: 1 }),
        (Event::Open(1), Outcome::Done),
        (Event::Finish(1), Outcome::Done),
        (Event::Claim(1), Outcome::Given { number: 2 }),
        (Event::Open(1), Outcome::Done),
        (Event::Finish(1), Outcome::Done),
        (Event::Claim(1), Outcome::Given { number: 3 }),
        (Event::Open(1), Outcome::NotYet { finished: 2 }),
        (Event::Open(0), Outcome::Done),
        (Event::Finish(0), Outcome::Done),
        (Event::Finish(0), Outcome::Misplaced),
        (Event::Open(1), Outcome::Done),
    ];
    assert!(rt; answers(rt.alloc(), &case.loading(), 2, &cases)?);
    Ok(())
}

#[test]
fn a_chunk_goes_on_in_the_next_phase(rt: HostRuntime) -> Result<(), Fail> {
    let case = two_links_in_a_line(rt.alloc())?;
    let cases = [
        (
            Event::ClaimChunk { worker: 0, many: 4 },
            Outcome::GivenChunk { first: 0, end: 4 },
        ),
        (
            Event::ClaimChunk { worker: 1, many: 3 },
            Outcome::GivenChunk { first: 4, end: 7 },
        ),
        (Event::Open(1), Outcome::NotYet { finished: 0 }),
        (Event::Open(0), Outcome::Done),
        (Event::ClaimChunk { worker: 0, many: 1 }, Outcome::Misplaced),
        (Event::Finish(0), Outcome::Done),
        (Event::Open(1), Outcome::Done),
        (Event::Open(0), Outcome::Done),
        (Event::Finish(1), Outcome::Done),
        (Event::Open(1), Outcome::NotYet { finished: 5 }),
        (Event::Finish(0), Outcome::Done),
        (Event::Open(1), Outcome::Done),
        (Event::ClaimChunk { worker: 0, many: 0 }, Outcome::Misplaced),
        (
            Event::ClaimChunk {
                worker: 0,
                many: 257,
            },
            Outcome::Misplaced,
        ),
        (
            Event::ClaimChunk {
                worker: 0,
                many: 256,
            },
            Outcome::GivenChunk { first: 7, end: 263 },
        ),
        (Event::Open(0), Outcome::NotYet { finished: 6 }),
        (Event::Finish(1), Outcome::Done),
        (Event::Open(0), Outcome::Done),
    ];
    assert!(rt; answers(rt.alloc(), &case.loading(), 2, &cases)?);
    Ok(())
}
