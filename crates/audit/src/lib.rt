//! An audit of the two tables of an assignment, whose maker isn't trusted.
//!
//! [`audit`] takes nothing from an agent table but its routes: each row has to name the vehicle of
//! its place, with the zones and the departure of its trip, and links that are a walk between
//! them; then the trips are loaded over these routes once more, and each row has to tell the
//! journey that its vehicle has in that loading, and each row of the table of link times the visits
//! and the time of its bucket. The answer is the verdict of all these checks in their order
//! (specs/Audit.antt): yes, or the place of the first that fails, by its table, line and column.
//! [`read_agents`] is that of agent_table.
#![tactic(auto)]

mod audited;
mod journey_checks;
mod laws;
mod plan;
mod time_checks;
mod trip_checks;
mod verdict;

pub use agent_table::{AgentRow, AgentRows, read_agents};
pub use audited::audit;
pub use laws::{a_yes_holds, verdicts_are_determined};
pub use plan::Plan;
pub use verdict::Verdict;
