//! The job of a run: what its settings and its tables come to, before any work.
//!
//! [`accept`] reads the tables of a command one after the other (specs/Tables.antt). It answers
//! the [`Job`] of their rows (specs/Jobs.antt), or why the run stops: the first cause in the order
//! of reading (specs/Causes.antt). A table is checked before the next is read, and the sizes of
//! the work last.
#![tactic(auto)]

mod assign_job;
mod audit_job;
mod job;
mod limits;
mod skim_job;
mod stop;
mod sweep_job;
mod tables;

pub use assign_job::AssignJob;
pub use audit_job::AuditJob;
pub use job::{Job, accept};
pub use limits::{TooBig, sizes};
pub use skim_job::SkimJob;
pub use stop::Stop;
pub use sweep_job::SweepJob;
