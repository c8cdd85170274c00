//! Least times and chosen walks from every zone to a zone, by link times or by whole trips.
//!
//! [`Labels::to_zone`] fills, from the horizon down, the steps that are left from where each link
//! ends, over the free-flow times from the horizon on. [`Labels::least`] then tells the least time
//! from a zone at a step, and [`Labels::walk`] the chosen walk, in the words of
//! specs/Least.antt of `dta_model`: over all walks, also those that repeat links, and None exactly
//! where there is none. [`GroupLabels`] does the same for up to eight zones at once.
//!
//! By whole trips (specs/TripWalks.antt of `trip_costs`) the chosen walk has the fewest links of
//! those with the least time: a breadth-first search finds it over the ways on that meet what is
//! left.
//!
//! What is left is kept for each walk state and step up to the horizon. A walk state, in this
//! crate called a state, is a node where no turn is listed, or a link that ends at another. A
//! group takes 16 bytes for each state and step: eight zones side by side in 16 bits, or four in
//! 32 where times may take more; where that isn't enough, 8 bytes for each of its zones. `least`
//! looks at the links out of the origin and takes no memory; `walk` looks once at the turns of
//! each of its links.
#![tactic(auto)]

mod filling;
mod reading;
mod states;

pub use filling::no_walk::NARROW_FAR;
pub use filling::spare::Spare;
pub use reading::found::Walk;
pub use reading::group_labels::{GroupLabels, MOST_GROUP};
pub use reading::labels::Labels;
pub use reading::walk_lists::WalkLists;
pub use states::by_zone::ByZone;
pub use states::longest_way::{most_time, most_wait};
pub use states::network_router::router_of;
pub use states::router::Router;
pub use states::zone_numbers::{NO_ZONE, or_none};
