//! The steps that links take, by the bucket of their entry: free-flow, of a loading, or given.
//!
//! [`LinkTimes::of`] goes once over the journeys of a loading, and adds each visit to its bucket.
//! Its contract is the definition of link times over the whole trace (specs/LinkTimes.antt of
//! `dta_model`). [`LinkTimes::at`] and the other reading calls take no memory and one look-up.
//!
//! At rest the table of a loading has 12 bytes for each bucket of each link: a time, which stands
//! link by link and bucket by bucket, and a number of visits (16 where some number is above 32
//! bits). While visits are added there are 16, a sum and a number; the times then come to 4 more
//! before the sums go.
#![tactic(auto)]

mod adding;
mod laws;
mod means;
mod rows;
mod table;
mod visit;

pub use laws::link_times_in_any_order;
pub use table::LinkTimes;
