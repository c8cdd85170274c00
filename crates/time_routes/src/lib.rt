//! Least times and chosen walks of vehicles, by link times or by whole trips.
//!
//! [`tell_by_shares`] answers what is asked of vehicles, their least times and chosen walks from
//! their departures, whatever their zones, by the labels of a group of destinations after another,
//! in up to four shares of the groups side by side. None is told exactly where there is no walk, or
//! where it wasn't asked. [`tell`] does the same in the calling thread alone.
//!
//! A vehicle takes the answer that was searched last from its zone where that is of the same zones
//! and departure. So the links that begin in a zone are looked at once for all of these vehicles; a
//! share takes 8 bytes for each zone of the network to find the answer.
#![tactic(auto)]

mod answers;
mod answers_again;
mod destination;
mod groups;
mod put_answers;
mod search;
mod shares;
mod table_pool;
mod vehicles;
mod zone_memo;

pub use labels::{GroupLabels, Labels, MOST_GROUP};
pub use shares::MOST_SHARES;
pub use table_pool::TablePool;
pub use vehicles::{Ask, Told, tell, tell_by_shares};
