//! The board that monitors read while a loading runs.
//!
//! One writer posts the state of a loading as eight numbers, one state after the other, and any
//! number of monitors read them. A [`Board`] shows the last state that was posted, and zeros
//! before the first. Its promise is that a monitor never reads a half-written state, and none that
//! is older than what it has read or was told of: what each pass knows is a beginning of one list
//! of posted states. The words stand in the ruled cell of `crossbeam_utils`, and specs/Rule.antt
//! is the rule that each step keeps, whatever the other threads do. [`Board::new`] alone takes
//! memory.
#![tactic(auto)]

mod board;
mod monitor_pass;
mod note;
mod rule;
mod words;
mod writer_pass;

pub use board::Board;
pub use monitor_pass::MonitorPass;
pub use note::Note;
pub use writer_pass::WriterPass;
