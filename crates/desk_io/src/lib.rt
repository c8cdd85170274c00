//! The outside of the program: the tables that it reads and the outputs that it puts.
//!
//! A desk hands out the bytes of six tables and takes the bytes of nine outputs. The crates above
//! know of files, standard output and memory only what the trait `Desk` says, so one proof serves
//! a run over files and a run in a test. The crate's promise: what is read is what was left, what
//! is put is what was given, and a failure comes only where a count of the desk rose.
#![tactic(auto)]

mod desk;
mod mem_desk;
mod source;
mod tally_desk;
mod transfers;

pub use desk::{Desk, Failed, Output, Table};
use item_list::List;
pub use mem_desk::MemDesk;
use std::alloc::AllocError;
pub use tally_desk::TallyDesk;
pub use transfers::{MOST_TABLE_BYTES, ReadRefusal, put_all, read_table};

/// Want of memory: the error of a call that may allocate and fails in no other way.
pub type Memory = AllocError;

/// A text, as its bytes.
pub type Text = List<u8>;
