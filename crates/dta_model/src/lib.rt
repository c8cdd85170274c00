//! The data of a loading, and the definitions that say what a loading is.
//!
//! The definitions stand in specs/, from the release of vehicles to the state after a number of
//! steps, over a [`Plan`]: what a [`Loading`] lends, as plain data. Each function of `laws` does
//! nothing; its contract is something that is true of every loading.
#![tactic(auto)]

mod credit;
mod eight;
mod laws;
mod loaded;
mod loading;
mod machine;
mod plan;
mod queue;
mod routes;
mod trip;

pub use credit::PARTS_OF_A_VEHICLE;
pub use eight::Eight;
pub use laws::{
    arrival_is_last, departures_are_even, entries_add_up, heads_move, journeys_end_in_order,
    journeys_in_any_order, links_are_left_at_their_ends, links_are_left_in_order, no_move_is_left,
    nodes_in_any_order, none_outside, nothing_at_the_start, one_step_is_spatial, queues_add_up,
    routes_are_followed, steps_are_below, steps_rise, trips_are_released, two_links_are_sound,
    vehicles_are_conserved, visits_end_in_order,
};
pub use loaded::{Journey, Loaded, Steps};
pub use loading::{Loading, MOST_HORIZON, MOST_LINK_STEPS};
pub use machine::{Event, MOST_CHUNK, Outcome, Stage};
pub use plan::Plan;
pub use queue::{MOST_WAVE, Queue};
pub use routes::{Route, Routes};
pub use trip::{DemandCell, MOST_TRIPS, Trip, VOLUME_OF_A_VEHICLE};
