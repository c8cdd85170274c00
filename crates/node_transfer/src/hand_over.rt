// Handing the journeys over.
ghost use Rattle.dta_model.specs.Riders.{RiderState};
ghost use Rattle.node_transfer.specs.Hand.{Within, handed, line_of, riders_in, waiting_of};
ghost use Rattle.std.specs.List.{flat_map};
ghost use Rattle.std.specs.Prelude.{◌≡◌, ◌+◌, ◌++◌, All, List, length, IsTrue, false, []};

use crate::cell::NodeCell;
use cell_stages::{InLink, OutLink};
use dta_model::Loaded;
use link_queues::Line;

// Sets the journey of the first rider, and says whether there was one.
#[tactic(auto, using(crate::proofs::OfHandOver::Hands::hand_steps))]
fn hand_first(line: &mut Line, loaded: &mut Loaded) -> bool
    requires { All (Within (length loaded.old)) line.old }
    ensures kept { All (Within (length loaded.new)) line.new }
    ensures same { length loaded.new ≡ length loaded.old }
    ensures goes { handed line.old loaded.old ≡ handed line.new loaded.new }
    ensures shorter { IsTrue result → length line.new + 1 ≡ length line.old }
    ensures done { result ≡ false → line.new ≡ [] }
{
    match line.pop() {
        None => false,
        Some(rider) => {
            let number = rider.number();
            loaded.set(number, rider.journey());
            true
        }
    }
}

// Sets the journey of each rider of a line.
#[tactic(auto, unfolding(crate::specs::Hand::handed))]
fn hand_line(line: &mut Line, loaded: &mut Loaded)
    requires { All (Within (length loaded.old)) line.old }
    ensures same { length loaded.new ≡ length loaded.old }
    ensures done { loaded.new ≡ handed line.old loaded.old }
{
    while hand_first(line, loaded) {}
}

// A link of a cell, with riders on it or behind it.
trait HasRiders {
    ghost riders: { Self → List RiderState };

    // Sets the journeys of its riders.
    fn hand(&mut self, loaded: &mut Loaded)
        requires { All (Within (length loaded.old)) (riders self.old) }
        ensures same { length loaded.new ≡ length loaded.old }
        ensures done { loaded.new ≡ handed (riders self.old) loaded.old };
}

impl HasRiders for InLink {
    ghost riders = { line_of };

    fn hand(&mut self, loaded: &mut Loaded) {
        hand_line(&mut self.line, loaded);
    }
}

impl HasRiders for OutLink {
    ghost riders = { waiting_of };

    fn hand(&mut self, loaded: &mut Loaded) {
        hand_line(&mut self.waiting.due, loaded);
        hand_line(&mut self.waiting.later, loaded);
    }
}

// Sets the journeys of the riders of all links.
fn hand_links<T: HasRiders>(links: &mut [T], loaded: &mut Loaded)
    requires { All (Within (length loaded.old)) (flat_map T.riders links.old) }
    ensures same { length loaded.new ≡ length loaded.old }
    ensures done { loaded.new ≡ handed (flat_map T.riders links.old) loaded.old }
{
    for i in 0..links.len() {
        links[i].hand(loaded);
    }
}

/// Sets the journeys of those on the in-links, of those who wait for the out-links, and of those
/// who arrived.
pub fn hand_parts(ins: &mut [InLink], outs: &mut [OutLink], arrived: &mut Line, loaded: &mut Loaded)
    requires { All (Within (length loaded.old))
        (flat_map line_of ins.old ++ (flat_map waiting_of outs.old ++ arrived.old)) }
    ensures { loaded.new ≡ handed
        (flat_map line_of ins.old ++ (flat_map waiting_of outs.old ++ arrived.old)) loaded.old }
{
    hand_links(ins, loaded);
    hand_links(outs, loaded);
    hand_line(arrived, loaded);
}

/// Sets the journeys of the riders of all cells; the other journeys stay.
pub fn hand_over_all(cells: Vec<NodeCell>, loaded: &mut Loaded)
    requires { All (Within (length loaded.old)) (flat_map riders_in cells.items) }
    ensures { loaded.new ≡ handed (flat_map riders_in cells.items) loaded.old }
{
    for cell in cells {
        cell.hand_over(loaded);
    }
}
