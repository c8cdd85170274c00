//! The public call `run`, which is the whole work of the program `dta`.
//!
//! `run` carries the promise of the repository, one record, which is read first (specs/Headline).
//! Over any desk it answers Done only where every table that its command reads is accepted and the
//! outputs grew by exactly the texts of its settings and tables, a function of these, and it says
//! what holds of each loading.
//! Every other answer but Memory has its cause in the contract. `run_arguments` hands it the words
//! of a command line, and `program` gives the number with which the program ends.
#![tactic(auto)]

mod accepted;
mod arguments;
mod exit_number;
mod laws;
mod top_call;
mod without_workers;

pub use arguments::run_arguments;
pub use commands::Status;
pub use exit_number::program;
pub use jobs::{TooBig, sizes};
pub use laws::equal_runs_write_equal_texts;
pub use loader::{CountGate, Gate, NoGate};
pub use top_call::run;
pub use without_workers::{run_without_workers, takes_workers};
