//! The texts that go out: those of `freeflow`, vehicles, link times, origin waits, gaps, the
//! report, that of an audit, watch lines and refusals.
//!
//! Each call puts one text (`put_free` two) to its output of a desk, in pieces of a few kilobytes,
//! and takes no memory. Its contract names the whole text, as a function of the data that it is
//! given (specs/Texts.antt). It answers Failed only where the desk counts one more failed put;
//! then a first part of the text went out, and nothing after it.
#![tactic(auto)]

mod agents;
mod audited;
mod buckets;
mod free;
mod gaps;
mod names;
mod refusal;
mod refused;
mod status;
mod summary;
mod times;
mod waits;
mod watch;

pub use agents::{put_agents, put_agents_from};
pub use audited::{Place, put_audit};
pub use free::put_free;
pub use gaps::put_gaps;
pub use refusal::{MOST_SKIM_ENTRIES, MOST_SWEEP_LINK_STEPS, Refusal};
pub use refused::put_refusal;
pub use status::status_text;
pub use summary::{Summary, put_summary};
pub use times::put_link_times;
pub use waits::put_origin_waits;
pub use watch::put_watch;
