//! Options of a command line in one flat list: each has a value or is a flag, and one number may
//! stand alone. The crate knows no option by name, so any program can use it.
//!
//! `read` has `clap` read the words of a command with such options. The crate's promise: what it
//! finds are the uses that a grammar gives the words, each name at most once, and it finds nothing
//! exactly where the grammar gives none. The grammar stands in specs/Uses over the list of words,
//! apart from clap.
#![tactic(auto)]

mod flat;
mod reading;

pub use flat::{FlatOptions, NUMBER};
pub use reading::read;
