// How the workers of a floor share its units: how many each draws at a time, and who stands by.
ghost use Rattle.dta_model.specs.declared.machine.TheConstants.{MOST_CHUNK};
ghost use Rattle.std.specs.Prelude.{◌≤◌};

use crate::pauses::sleep;
use phase_claims::{Floor, MOST_CHUNK};
use std::sync::Wait;

// The nodes for each worker. With fewer a phase has so little work that it takes longer to wait for
// one more worker than to work without it.
const NODES_OF_A_WORKER: u32 = 64;

// The chunks that a worker draws in a phase, so that all end at about the same time.
const CHUNKS_OF_A_PHASE: u32 = 8;

// The microseconds between two looks of a worker that stands by.
const BETWEEN_LOOKS: u32 = 250;

// How many workers work all the time.
fn working(floor: &Floor) -> u32
    ensures { 1 ≤ result }
{
    let most = floor.node_count() / NODES_OF_A_WORKER;
    most.min(floor.pass_count()).max(1)
}

/// How many numbers a worker draws at a time, as in the dynamic schedule of OpenMP. One alone draws
/// those of a step. Where the others stand by, half a phase is left to them.
pub fn chunk_of(floor: &Floor) -> u32
    ensures least { 1 ≤ result }
    ensures most { result ≤ MOST_CHUNK }
{
    let nodes = floor.node_count();
    let wanted = match (floor.pass_count(), working(floor)) {
        (1, _) => nodes.saturating_mul(2).saturating_add(1),
        (_, 1) => nodes / 2,
        (_, working) => nodes / working / CHUNKS_OF_A_PHASE,
    };
    wanted.max(1).min(MOST_CHUNK)
}

/// Whether a worker stands by while the others get on.
pub fn stands_by(floor: &Floor, worker: u32) -> bool {
    worker >= working(floor)
}

/// Stands by until the others no longer draw units, or have drawn all.
pub fn stand_by<R: Wait>(rt: &R, floor: &Floor) {
    let mut before = floor.left();
    for _ in rt.forever() {
        if before == 0 {
            break;
        }
        sleep(rt, BETWEEN_LOOKS);
        let left = floor.left();
        if left == before {
            break;
        }
        before = left;
    }
}
