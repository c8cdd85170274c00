//! Agent tables, with all that they tell of their vehicles: what an audit looks at.
//!
//! [`read_agents`] reads an agent table, and answers exactly its rows or exactly its first fault
//! (specs/Agents.antt). Whether the rows are right is another matter. A start table is an agent
//! table too, but of its columns only those count that name routes, and it has a reader of its own.
#![tactic(auto)]

mod reading;
mod rows;

pub use reading::read_agents;
pub use rows::{AgentRow, AgentRows, MOST_AGENT_ROWS};
