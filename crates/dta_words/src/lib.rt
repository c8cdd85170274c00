//! The words of a command line, and the settings that they ask for.
//!
//! The first word is a command's name and is read by hand. The words behind it are read by one flat
//! list of options per name (flat_options), whose values are text, and the product reads these:
//! numbers, units, a list of steps, a link's identifier, multiples of the demand. The crate's
//! promise: `settings` answers the settings that the grammar gives the words, or refuses them
//! exactly where it gives none. The grammar stands in specs/ over the list of words, apart from
//! clap.
#![tactic(auto)]

mod command;
mod grammar;
mod numbers;
mod options;
mod pieces;
mod refusal;
mod scales;
mod starts;
mod values;
mod words;

pub use command::{Command, Settings};
pub use grammar::settings;
pub use options::GREATEST_SCALE;
pub use refusal::WordsRefusal;
pub use scales::Scales;
pub use words::Words;
