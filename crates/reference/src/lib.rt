//! The reference: from settings and rows of tables to the texts of a run, by functions alone.
//!
//! specs/Search finds the chosen walk between two zones, by link times or by whole trips, among the
//! walks of a bounded number of links. specs/Routes and specs/Gaps are the routes of vehicles and
//! the gap by these walks, and specs/Reference is the plain simulator from top to bottom: the
//! iterations of an assignment and its texts, in the words of the definitions that `run` cites.
//! Skims, Sweeps and Audits are the other commands, and Texts has the texts of settings and a job,
//! which `run` promises. specs/Examples computes worked cases.
//!
//! The laws say that words and tables that aren't refused come to an accepted job, and that by the
//! definitions as relations, among all walks, it has these texts after its watch lines, and no
//! others. No program calls this crate.
#![tactic(auto)]

mod laws;

pub use laws::{each_job_has_its_texts, walks_are_found};
