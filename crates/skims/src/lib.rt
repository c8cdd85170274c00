//! Least times between all zones of a network, from a table of link times that is there already.
//!
//! [`read_times`] reads a times table, what LinkTime of an earlier run tells, and answers exactly
//! its rows or exactly its first fault; the checks of a row stand in specs/TimesTable.antt, a line
//! a column. [`times_of`] makes a [`LinkTimes`](link_times::LinkTimes) of such rows, and [`skim`]
//! tells for each ordered pair of different zones and for each start the least time in it, or that
//! there is no walk. Its contract is the definition of a skim (specs/Skim.antt), whose least times
//! are those of `dta_model`, over all walks, also those that repeat links. [`put_skim`] puts its
//! text and a report.
//!
//! Destinations are worked up to eight at once, a group after another, in the calling thread: as
//! many passes over the states and steps of the network as there are groups, and for each entry
//! one look at the links out of its origin. There are labels of one group at a time. Beside them a
//! skim takes 16 bytes for each pair of zones and each start, and 40 for each of its entries.
#![tactic(auto)]

mod between_zones;
mod entries;
mod given_times;
mod laws;
mod leasts;
mod skim_entry;
mod texts;
mod time_rows;
mod times_table;
mod wanted;
mod zones;

pub use between_zones::skim;
pub use given_times::times_of;
pub use laws::skims_are_determined;
pub use skim_entry::{Skim, SkimEntry};
pub use texts::put_skim;
pub use time_rows::{TimeRow, TimeRows};
pub use times_table::{MOST_TIME_ROWS, MOST_TRAVEL_STEPS, read_times};
