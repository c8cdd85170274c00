// The rows of an agent table against the journeys of a loading.
ghost use Rattle.std.specs.Prelude.{◌≡◌, ◌↔◌, ◌<◌, ◌^◌, length, IsTrue};
ghost use Rattle.audit.specs.Audit.{all_journey_checks, journey_checks};
ghost use Rattle.audit.specs.Audit.{status_text as status_text_of};
ghost use Rattle.audit.specs.Checks.{IsVerdict};

use crate::verdict::Verdict;
use agent_table::AgentRow;
use desk_io::Table;
use dta_model::Journey;
use reports::status_text;
use row_reader::Column;

// Whether a step is told that is this one, or none is told and there is none.
fn is_step(told: Option<u64>, step: Option<u32>) -> bool
    ensures { IsTrue result ↔ (told ≡ step) }
{
    match told {
        Some(told) => match step {
            Some(step) => told == u64::from(step),
            None => false,
        },
        None => step.is_none(),
    }
}

// Whether these steps are told.
fn are_steps(told: &[u64], steps: &[u32]) -> bool
    ensures { IsTrue result ↔ (told.now ≡ steps.now) }
{
    if told.len() != steps.len() {
        return false;
    }
    for i in 0..told.len() {
        if told[i] != u64::from(steps[i]) {
            return false;
        }
    }
    true
}

// Whether a row has the status of its vehicle.
fn has_status(row: &AgentRow, journey: &Journey) -> bool
    ensures { IsTrue result ↔ (row.now.status ≡ status_text_of row.now.links journey.now) }
{
    let routed = !row.links.as_slice().is_empty();
    row.status.as_slice() == status_text(routed, journey).as_bytes()
}

// The verdict of a row.
fn journey_verdict(r: usize, row: &AgentRow, journey: &Journey) -> Verdict
    requires { r < 2 ^ 63 }
    ensures { IsVerdict (journey_checks r row.now journey.now) result }
{
    let line = r as u64 + 2;
    Verdict::of(
        is_step(row.arrival, journey.arrival),
        Table::Start,
        line,
        Column::ArrivalStep,
    )
    .then(Verdict::of(has_status(row, journey), Table::Start, line, Column::Status))
    .then(Verdict::of(
        are_steps(row.entries.as_slice(), journey.entries.as_slice()),
        Table::Start,
        line,
        Column::EntrySteps,
    ))
}

/// The verdict of the rows of an agent table against the journeys of their vehicles.
#[tactic(auto, unfolding(crate::specs::Audit::all_journey_checks))]
pub(crate) fn check_journeys(agents: &[AgentRow], journeys: &[Journey]) -> Verdict
    requires { length agents.now ≡ length journeys.now }
    ensures { IsVerdict (all_journey_checks agents.now journeys.now) result }
{
    for r in 0..agents.len() {
        let verdict = journey_verdict(r, &agents[r], &journeys[r]);
        match verdict {
            Verdict::Yes => {}
            Verdict::No { .. } => return verdict,
        }
    }
    Verdict::Yes
}
