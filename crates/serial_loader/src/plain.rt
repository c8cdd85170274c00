// The plain simulator.
ghost use Rattle.dta_model.specs.Laws.{EndInOrder, LinksAreLeftInOrder, StaysConserved};
ghost use Rattle.dta_model.specs.Lent.{plan_of};
ghost use Rattle.dta_model.specs.Loading.{journeys_of};
ghost use Rattle.dta_model.specs.Sound.{IsSound};
ghost use Rattle.serial_loader.specs.Phases.{AreBefore, cells_before};
ghost use Rattle.std.specs.Prelude.{◌≡◌, IfOk};

use crate::phases::do_all;
use dta_model::{Loaded, Loading};
use net_core::Memory;
use node_transfer::{Half, Mail, NodeCell, Opening, hand_over_all, opening};
use std::alloc::Global;

/// The journeys of a loading, by its definition: an entry step for each link that a vehicle
/// entered, and the step of its arrival, if it arrived (Zhou and Taylor 2014).
///
/// In that loading each due vehicle waits, is on one link or has arrived, after every step, and
/// links are left in the order of entry.
pub fn load_plain(alloc: Global, loading: &Loading) -> Result<Loaded, Memory>
    requires { IsSound (plan_of loading.now) }
    ensures journeys { IfOk result (λ loaded. loaded ≡ journeys_of (plan_of loading.now)) }
    ensures order { IfOk result (EndInOrder (plan_of loading.now)) }
    ensures conserved { IfOk result (λ loaded. StaysConserved (plan_of loading.now)) }
    ensures left_in_order { IfOk result (λ loaded. LinksAreLeftInOrder (plan_of loading.now)) }
{
    let Opening {
        cells,
        mail,
        mut loaded,
    } = opening(alloc, loading)?;
    let mut cells = cells.into_vec();
    let mut wakes = Vec::from_elem(alloc, 0, cells.len())?;
    let mut mail = mail.into_vec();
    run_steps(loading, &mut cells, &mut wakes, &mut mail);
    hand_over_all(cells, &mut loaded);
    Ok(loaded)
}

// All steps of a loading.
fn run_steps(loading: &Loading, cells: &mut [NodeCell], wakes: &mut [u32], mail: &mut [Mail])
    requires sound { IsSound (plan_of loading.now) }
    requires before { AreBefore (plan_of loading.now) 0 cells.old wakes.old mail.old }
    ensures { cells.new ≡ cells_before (plan_of loading.now) loading.now.horizon }
{
    for step in 0..loading.horizon {
        do_all(loading, Half::Transfer, step, cells, wakes, mail);
        do_all(loading, Half::Gather, step, cells, wakes, mail);
    }
}
