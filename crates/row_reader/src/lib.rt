//! The records of a table, one at a time, and its rows or its first fault.
//!
//! [`Rows`] reads a table's records in order and answers each with its line, the end exactly at
//! the end, or the first record that isn't text or isn't as long as the header. [`read_rows`]
//! makes rows of a table's records, or answers the first fault: the least line at which a check
//! fails, and there the first check that fails. A table names the columns that it must have, and
//! supplies its checks of a line as an [`Accepted`], made of the checks of [`Fields`].
#![tactic(auto)]

mod accepted;
mod blanks;
mod faults;
mod fields;
mod header;
mod laws;
mod opening;
mod rows;

pub use accepted::{Accepted, RowRefusal, read_rows};
pub use faults::{
    Code, Column, Complaint, TableFault, TableRefusal, code_name, column_name, table_name,
};
pub use fields::{Fields, complain, not_a_number, unless, within};
pub use laws::{accepted_rows_are_those_of_all_records, the_fault_is_that_of_the_least_line};
pub use rows::{Row, RowFault, Rows};
