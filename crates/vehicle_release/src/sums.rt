// The running sum of volumes, and the vehicles that it makes.
ghost use Rattle.std.specs.Prelude.{◌≡◌, ◌+◌, ◌≤◌, ◌^◌, ◌<◌, All, length, IfOk, OnOk, IfErr};
ghost use Rattle.fixed_units.specs.declared.quantity.TheConstants.{MOST_THOUSANDTHS};
ghost use Rattle.dta_model.specs.Release.{counted, vehicles_before};
ghost use Rattle.vehicle_release.specs.Limits.{IsWithin, TellsFirstAbove};

use crate::fault::ReleaseFault;
use dta_model::{DemandCell, MOST_TRIPS, VOLUME_OF_A_VEHICLE};

/// A sum of volumes with one more row, in thousandths. A row within a zone counts nothing.
pub fn with_row(volume: u64, cell: &DemandCell) -> u64
    requires { volume + counted cell.now < 2 ^ 64 }
    ensures { result ≡ volume + counted cell.now }
{
    if cell.origin == cell.destination {
        volume
    } else {
        volume + cell.volume
    }
}

/// The vehicles of all rows, or the first row with which they are too many.
#[tactic(auto, using(crate::proofs::SumsFacts::counting))]
pub(crate) fn all_vehicles(cells: &[DemandCell]) -> Result<usize, ReleaseFault>
    requires volumes { All (λ cell. cell.volume ≤ MOST_THOUSANDTHS) cells.now }
    ensures total { IfOk result (λ total. total ≡ vehicles_before cells.now (length cells.now)) }
    ensures within { OnOk result (IsWithin cells.now) }
    ensures refused { IfErr result (TellsFirstAbove cells.now) }
{
    // No sum overflows: one more volume comes only to a sum of no more than the most vehicles.
    let mut volume: u64 = 0;
    for cell in cells {
        volume = with_row(volume, cell);
        let total = volume / VOLUME_OF_A_VEHICLE;
        if total > MOST_TRIPS as u64 {
            return Err(ReleaseFault::TooMany {
                line: cell.line,
                total,
            });
        }
    }
    Ok((volume / VOLUME_OF_A_VEHICLE) as usize)
}
