// The states in which links end, and the ways on from there.
pub(crate) mod by_zone;
pub(crate) mod link_states;
pub(crate) mod longest_way;
pub(crate) mod network_router;
pub(crate) mod onward;
pub(crate) mod router;
pub(crate) mod spans;
pub(crate) mod zone_numbers;
