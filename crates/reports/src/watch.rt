// The watch lines.
ghost use Rattle.std.specs.Prelude.{◌≡◌, ◌≤◌, ◌+◌, ◌++◌, length, OnOk, OnErr};
ghost use Rattle.desk_io.specs.declared.desk.Output.TheVariants as output;
ghost use Rattle.desk_io.specs.Transfers.{Puts};
ghost use Rattle.reports.specs.Texts.{watch_line};

use desk_io::{Desk, Failed, Output};
use dta_model::Eight;
use pending_text::Pending;

// The line of a state.
#[tactic(auto, using(crate::proofs::Sent::text), unfolding(crate::specs::Texts::watch_line))]
fn line(iteration: u32, eight: &Eight) -> Pending
    ensures { result ≡ watch_line iteration eight.now }
{
    let mut text = Pending::new();
    text.push_number(u64::from(iteration));
    text.push(",");
    text.push_number(eight.steps);
    text.push(",");
    text.push_number(eight.waiting);
    text.push(",");
    text.push_number(eight.running);
    text.push(",");
    text.push_number(eight.arrived);
    text.push(",");
    text.push_number(eight.first[0]);
    text.push(",");
    text.push_number(eight.first[1]);
    text.push(",");
    text.push_number(eight.first[2]);
    text.push(",");
    text.push_number(eight.first[3]);
    text.push("\n");
    text
}

/// Puts a watch line: an iteration, and a state of its loading. On Failed a first part of it went
/// out. It takes no memory.
pub fn put_watch<D: Desk>(desk: &mut D, iteration: u32, eight: &Eight) -> Result<(), Failed>
    ensures { Puts output.Watch (watch_line iteration eight.now)
        (D.state desk.old) (D.state desk.new) result }
{
    line(iteration, eight).put_out(desk, Output::Watch)
}
