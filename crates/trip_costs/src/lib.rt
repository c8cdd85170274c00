//! Costs of whole trips: definitions of waits at origins, of when links are entered and left, of
//! the time of a walk and the walk that is chosen by them, and of who changes.
//!
//! A walk's time over link times leaves two things out: the wait at the origin for a full first
//! link, and that nobody passes on a link, though a mean time falls from one bucket to the next. By
//! costs of trips both count (specs/TripCosts.antt). The crate has the laws of these definitions:
//! who starts later never arrives earlier, and no chosen walk has a link twice.
//!
//! [`OriginWaits::of`] goes once over the journeys of a loading, and adds each wait to its first
//! link and bucket. [`Entries`] tells when a first link is entered, and [`Exits`] when a link is
//! left, each by one number of 32 bits for each link and bucket, beside the link times.
//! [`TripCosts`] has both. Which costs a run goes by is one word, [`Costs`], and [`LoadingCosts`] are
//! those of a loading.
//!
//! [`WalkCosts`] is what labels, routes and gaps are asked for by: link times, or costs of trips.
//! [`WalkCosts::time_of`] times a walk by either (specs/Timings.antt).
#![tactic(auto)]

mod adding;
mod changes;
mod costs;
mod entries;
mod exits;
mod laws;
mod loading_costs;
mod origin_waits;
mod places;
mod walk_costs;
mod walked;

pub use changes::{PER_ITERATION, PER_VEHICLE, PRIME, changes_after};
pub use costs::TripCosts;
pub use entries::Entries;
pub use exits::Exits;
pub use laws::{
    entries_and_exits_are_bounded, entries_never_fall, exits_never_fall,
    free_flow_past_the_horizon, later_never_arrives_earlier, links_are_the_table,
    no_chosen_trip_has_a_link_twice, times_agree_where_nothing_falls,
};
pub use loading_costs::{Costs, LoadingCosts};
pub use origin_waits::OriginWaits;
pub use walk_costs::WalkCosts;
