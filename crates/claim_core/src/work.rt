// The work of a unit.
ghost use Rattle.claim_core.specs.Work.{AreMoved, AreReady};
ghost use Rattle.dta_model.specs.Lent.{plan_of};
ghost use Rattle.dta_model.specs.Sound.{IsSound};
ghost use Rattle.dta_model.specs.Units.{unit_count};
ghost use Rattle.std.specs.Prelude.{◌≡◌, ◌<◌};

use crate::units::Units;
use dta_model::Loading;
use node_transfer::exchange::do_half;
use node_transfer::{Mail, NodeCell};

/// Takes the parts of a unit to their next stage. A posting moves none.
pub(crate) fn do_work(loading: &Loading, number: u64, cells: &mut [NodeCell], mail: &mut [Mail])
    requires sound { IsSound (plan_of loading.now) }
    requires number { number < unit_count (plan_of loading.now) }
    requires ready { AreReady (plan_of loading.now) number
        (record { cells = cells.old; mail = mail.old }) }
    ensures { AreMoved (plan_of loading.now) number
        (record { cells = cells.old; mail = mail.old })
        (record { cells = cells.new; mail = mail.new }) }
{
    let units = Units::of(loading);
    match units.half_in(units.phase_of(number), number) {
        Some(half) => do_half(loading, half, &mut cells[half.node.0 as usize], mail),
        None => {}
    }
}
