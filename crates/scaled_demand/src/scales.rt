// Demand times a scale.
ghost use Rattle.std.specs.Prelude.{◌≡◌, ◌≤◌, All, IfOk};
ghost use Rattle.fixed_units.specs.declared.quantity.TheConstants.{MOST_THOUSANDTHS};
ghost use Rattle.dta_words.specs.declared.options.TheConstants.{GREATEST_SCALE};
ghost use Rattle.scaled_demand.specs.Scales.{scaled, scaled_cell, scaled_volume};

use dta_model::DemandCell;
use fixed_units::MOST_THOUSANDTHS;
use net_core::Memory;
use std::alloc::Global;

/// The thousandths of a scale of one.
const THOUSANDTHS: u64 = 1000;

/// A volume times a scale in thousandths, rounded down, and at most the greatest volume.
fn times_scale(volume: u64, scale: u64) -> u64
    requires volume { volume ≤ MOST_THOUSANDTHS }
    requires scale { scale ≤ GREATEST_SCALE }
    ensures { result ≡ scaled_volume scale volume }
{
    (volume * scale / THOUSANDTHS).min(MOST_THOUSANDTHS)
}

/// A demand row with its volume times a scale. Its window stays.
pub(crate) fn times(cell: &DemandCell, scale: u64) -> DemandCell
    requires volume { cell.now.volume ≤ MOST_THOUSANDTHS }
    requires scale { scale ≤ GREATEST_SCALE }
    ensures is { result ≡ scaled_cell scale cell.now }
    ensures volume { result.volume ≤ MOST_THOUSANDTHS }
{
    DemandCell {
        volume: times_scale(cell.volume, scale),
        ..*cell
    }
}

/// Demand rows with their volumes times a scale.
pub fn scaled_cells(
    alloc: Global,
    cells: &[DemandCell],
    scale: u64,
) -> Result<Vec<DemandCell>, Memory>
    requires volumes { All (λ cell. cell.volume ≤ MOST_THOUSANDTHS) cells.now }
    requires scale { scale ≤ GREATEST_SCALE }
    ensures are { IfOk result (λ items. items.items ≡ scaled scale cells.now) }
    ensures volumes { IfOk result (λ items.
        All (λ cell. cell.volume ≤ MOST_THOUSANDTHS) items.items) }
{
    let mut items = Vec::with_capacity(alloc, cells.len())?;
    for cell in cells {
        items.push(times(cell, scale))?;
    }
    Ok(items)
}
