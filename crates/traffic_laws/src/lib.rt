//! Laws of traffic, in the words of the field: what a planner checks first of any loading.
//!
//! Each function does nothing, and no program calls one. Its contract is a law of the definitions
//! of `dta_model`, `start_table`, `link_times`, `gap`, `route_flows`, `assignment`, `skims`,
//! `audit` and `reports` (docs/LAWS.md has them all, with what can be checked by hand).
#![tactic(auto)]

mod buckets;
mod capacity;
mod equilibrium;
mod free_flow;
mod least_times;
mod round_trips;
mod storage;
mod told;
mod waiting;

pub use buckets::{
    entered_are_those_who_entered_then, entries_are_departures_and_turns,
    leavings_are_turns_and_arrivals, link_times_are_not_below_free_flow,
};
pub use capacity::{
    entries_stay_within_the_rate, leavings_stay_within_the_rate, turns_stay_within_the_limit,
};
pub use equilibrium::{
    gaps_are_of_their_own_loadings, no_gap_means_user_equilibrium, the_gap_is_never_negative,
};
pub use free_flow::{
    links_take_free_flow_where_nothing_binds, no_trip_is_faster_than_free_flow,
    no_visit_is_faster_than_free_flow, nobody_departs_early, nobody_moves_twice_in_a_step,
    nothing_binds_on_wide_links, trips_take_free_flow_where_nothing_binds,
};
pub use least_times::no_route_is_faster_than_a_skim;
pub use round_trips::{an_audit_says_yes, link_times_are_read_back, routes_are_read_back};
pub use storage::{entries_follow_the_wave, links_hold_no_more_than_their_storage};
pub use told::{journeys_tell_the_entries, journeys_tell_the_leavings};
pub use waiting::{a_ready_vehicle_is_held_for_a_reason, an_origin_is_held_for_a_reason};
