//! Routes by iteration: successive averages over chosen walks.
//!
//! From the rows of a start table [`started_routes`] gives a vehicle that a row fits the row's walk
//! and any other its chosen one by free-flow steps. After iteration k [`gap_and_next_routes`] gives
//! those that are selected their chosen walks by the costs of the iteration; the others keep their
//! routes. It measures the gap of the iteration with the same labels. The contracts are the
//! definition of successive averages (specs/Averages.antt), for every number of workers.
//! [`route_iterations`] tells for each vehicle in which iteration it last took its route.
//!
//! [`first_routes`] starts without a table, and [`next_routes`] gives the next routes alone.
//!
//! Destinations are worked in groups of up to eight, by shares side by side, at most four and at
//! most as many as there are workers, in threads where they can be made. A share takes the next
//! group as soon as it is through with one, and the labels of a group take the place of those
//! before. A destination to which no vehicle goes has none.
#![tactic(auto)]

mod change;
mod flows;
mod kept;
mod laws;
mod routeless;
mod selection;
mod since;
mod starts;

pub use flows::{MOST_WORKERS, first_routes, gap_and_next_routes, next_routes, started_routes};
pub use laws::{iterations_are_determined, no_row_starts_nobody, routes_are_determined};
pub use routeless::unrouted;
pub use selection::{MOST_ITERATION, is_selected};
pub use since::route_iterations;
pub use start_table::{Ids, StartRow, StartRows, read_start};
