// The texts of a sweep.
ghost use Rattle.std.specs.Prelude.{◌≡◌, ◌++◌, length};
ghost use Rattle.desk_io.specs.declared.desk.Output.TheVariants as output;
ghost use Rattle.desk_io.specs.Transfers.{Puts};
ghost use Rattle.pending_text.specs.Outs.{PutsAll};
ghost use Rattle.sweep.specs.Texts.{scenario_line, scenario_text, sweep_report_line, sweep_text};
ghost use Rattle.sweep.specs.Texts.{sweep_texts, tables_of};

use crate::scenario::{Scenario, Sweep};
use desk_io::{Desk, Failed, Output, put_all};
use pending_text::Pending;

// The line before a scenario's texts.
#[tactic(auto, using(crate::proofs::Sent::text), unfolding(crate::specs::Texts::scenario_line))]
fn line(place: usize, scale: u64) -> Pending
    ensures { result ≡ scenario_line place scale }
{
    let mut line = Pending::new();
    line.push("scenario ");
    line.push_number(place as u64);
    line.push(" scale ");
    line.push_number(scale);
    line.push("\n");
    line
}

// Puts two texts to Sweep, one after the other.
fn put_both<D: Desk>(desk: &mut D, first: &[u8], second: &[u8]) -> Result<(), Failed>
    ensures { Puts output.Sweep (first.now ++ second.now)
        (D.state desk.old) (D.state desk.new) result }
{
    put_all(desk, Output::Sweep, first)?;
    put_all(desk, Output::Sweep, second)
}

// Puts the texts of a scenario.
#[tactic(auto, unfolding(crate::specs::Texts::tables_of))]
fn put_tables<D: Desk>(desk: &mut D, it: &Scenario) -> Result<(), Failed>
    ensures { Puts output.Sweep (tables_of it.now) (D.state desk.old) (D.state desk.new) result }
{
    put_both(desk, it.agent.as_slice(), it.link_time.as_slice())?;
    put_all(desk, Output::Sweep, it.origin_wait.as_slice())?;
    put_both(desk, it.gap.as_slice(), it.report.as_slice())
}

// Puts a scenario: its line, and then its texts.
#[tactic(auto, unfolding(crate::specs::Texts::scenario_text))]
fn put_scenario<D: Desk>(desk: &mut D, place: usize, it: &Scenario) -> Result<(), Failed>
    ensures { Puts output.Sweep (scenario_text place it.now) (D.state desk.old)
        (D.state desk.new) result }
{
    line(place, it.scale).put_out(desk, Output::Sweep)?;
    put_tables(desk, it)
}

// Puts all scenarios.
fn put_scenarios<D: Desk>(desk: &mut D, scenarios: &[Scenario]) -> Result<(), Failed>
    ensures { Puts output.Sweep (sweep_text scenarios.now)
        (D.state desk.old) (D.state desk.new) result }
{
    'each: for place in 0..scenarios.len() {
        put_scenario(desk, place, &scenarios[place])?;
    }
    Ok(())
}

// The report's line.
#[tactic(auto, using(crate::proofs::Sent::text), unfolding(crate::specs::Texts::sweep_report_line))]
fn report(scenarios: usize) -> Pending
    ensures { result ≡ sweep_report_line scenarios }
{
    let mut text = Pending::new();
    text.push("scenarios ");
    text.push_number(scenarios as u64);
    text.push("\n");
    text
}

/// Puts Sweep, for each scenario a line and then its texts, and then Report: how many scenarios
/// there are. On Failed a first part of one of them went out, of Report only where Sweep is whole.
/// It takes no memory.
pub fn put_sweep<D: Desk>(desk: &mut D, sweep: &Sweep) -> Result<(), Failed>
    ensures { PutsAll (sweep_texts sweep.now) (D.state desk.old) (D.state desk.new) result }
{
    let scenarios = sweep.as_slice();
    put_scenarios(desk, scenarios)?;
    report(scenarios.len()).put_out(desk, Output::Report)
}
