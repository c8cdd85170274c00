// The first scenario whose vehicles are too many.
ghost use Rattle.std.specs.Prelude.{◌≡◌, ◌≢◌, ℕ, ◌≤◌, ◌↔◌, All, Err, IfErr, OnOk};
ghost use Rattle.fixed_units.specs.declared.quantity.TheConstants.{MOST_THOUSANDTHS};
ghost use Rattle.dta_words.specs.Ranges.{AreScales};
ghost use Rattle.dta_words.specs.declared.options.TheConstants.{GREATEST_SCALE};
ghost use Rattle.vehicle_release.specs.Limits.{IsFirstAbove, IsWithin};
ghost use Rattle.scaled_demand.specs.Scales.{AreAllWithin, IsFirstTooMany, scaled};
ghost use Rattle.scaled_demand.specs.declared.fault.SweepFault.TheVariants as fault;

use crate::fault::SweepFault;
use crate::scales::times;
use dta_model::{DemandCell, MOST_TRIPS, VOLUME_OF_A_VEHICLE};
use vehicle_release::with_row;

// The line of the first row with which the vehicles are too many, and how many there are up to and
// with it.
#[derive(Clone, Copy)]
struct Excess {
    line: u64,
    total: u64,
}

// Checks the vehicles of a scenario.
#[tactic(auto, using(crate::proofs::LimitFacts::counting))]
fn check_scale(cells: &[DemandCell], scale: u64) -> Result<(), Excess>
    requires volumes { All (λ cell. cell.volume ≤ MOST_THOUSANDTHS) cells.now }
    requires scale { scale ≤ GREATEST_SCALE }
    ensures within { OnOk result (IsWithin (scaled scale cells.now)) }
    ensures first { IfErr result (λ e. IsFirstAbove (scaled scale cells.now) e.line e.total) }
{
    // No sum overflows: one more volume comes only to a sum of no more than the most vehicles.
    let mut volume: u64 = 0;
    for cell in cells {
        volume = with_row(volume, &times(cell, scale));
        let total = volume / VOLUME_OF_A_VEHICLE;
        if total > MOST_TRIPS as u64 {
            return Err(Excess {
                line: cell.line,
                total,
            });
        }
    }
    Ok(())
}

/// Checks the vehicles of all scenarios of a sweep, one after another, and tells the first one
/// that has too many. It takes no memory. Volumes and scales are in thousandths.
pub fn check_scales(cells: &[DemandCell], scales: &[u64]) -> Result<(), SweepFault>
    requires volumes { All (λ cell. cell.volume ≤ MOST_THOUSANDTHS) cells.now }
    requires scales { AreScales scales.now }
    ensures ok_within { OnOk result (AreAllWithin cells.now scales.now) }

    // A scenario is told exactly where it is the first with too many vehicles.
    ensures too_many { (scenario line total : ℕ) →
        (result ≡ Err (fault.TooMany scenario line total))
        ↔ IsFirstTooMany cells.now scales.now scenario line total }
    ensures no_memory { result ≢ Err fault.Memory }
{
    for scenario in 0..scales.len() {
        if let Err(excess) = check_scale(cells, scales[scenario]) {
            return Err(SweepFault::TooMany {
                scenario: scenario as u32,
                line: excess.line,
                total: excess.total,
            });
        }
    }
    Ok(())
}
