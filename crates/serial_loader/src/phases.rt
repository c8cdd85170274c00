// The two phases of a step. A node that sleeps through it is left as it is, and its mail too.
ghost use Rattle.dta_model.specs.Lent.{plan_of};
ghost use Rattle.dta_model.specs.Sound.{IsSound};
ghost use Rattle.serial_loader.specs.Phases.{AreFound, AreLeft, AreReached, AreWoken, is_batch};
ghost use Rattle.std.specs.Prelude.{◌≡◌, ◌<◌, length};

use dta_model::Loading;
use net_core::NodeNo;
use node_transfer::exchange::do_half;
use node_transfer::{Half, HalfStep, Mail, NodeCell};

/// A half of a step at all nodes, one after another.
pub fn do_all(
    loading: &Loading,
    half: Half,
    step: u32,
    cells: &mut [NodeCell],
    wakes: &mut [u32],
    mail: &mut [Mail],
)
    requires sound { IsSound (plan_of loading.now) }
    requires step { step < loading.now.horizon }
    requires found { AreFound half (plan_of loading.now) step cells.old wakes.old mail.old }
    ensures { AreLeft half (plan_of loading.now) step cells.new wakes.new mail.new }
{
    for n in 0..loading.net.node_count() {
        let at = n as usize;
        let node = NodeNo(n);
        if wakes[at] <= step {
            let cell = &mut cells[at];
            do_half(loading, HalfStep { half, node, step }, cell, mail);
            match half {
                Half::Transfer => wake_next(loading, node, wakes, mail),
                Half::Gather => wakes[at] = cell.next_step(),
            }
        }
    }
}

// Wakes the nodes to which those go who enter the out-links of a node.
fn wake_next(loading: &Loading, node: NodeNo, wakes: &mut [u32], mail: &[Mail])
    requires sound { IsSound (plan_of loading.now) }
    requires node { node.0 < length loading.now.net.now.nodes }
    requires wakes { length wakes.old ≡ length loading.now.net.now.nodes }
    requires mail { length mail.now ≡ length loading.now.net.now.links }
    ensures woken { AreWoken wakes.old wakes.new }
    ensures reached { AreReached (plan_of loading.now) node.0 wakes.new mail.now }
{
    let outs = loading.net.outs(node);
    for place in 0..outs.len() {
        let link = outs[place];
        if is_batch(&mail[link.0 as usize]) {
            wakes[loading.net.link(link).to.0 as usize] = 0;
        }
    }
}

// Whether a mail is a batch.
fn is_batch(mail: &Mail) -> bool
    ensures { result ≡ is_batch mail.now }
{
    matches!(mail, Mail::Batch { .. })
}
