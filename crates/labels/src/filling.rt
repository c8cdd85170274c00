// Tables of what is left to a few zones, from each state at each step, filled from the horizon
// down.
pub(crate) mod eight;
pub(crate) mod fill_table;
pub(crate) mod four;
pub(crate) mod free_flow;
pub(crate) mod label_table;
pub(crate) mod no_walk;
pub(crate) mod one;
pub(crate) mod slot_fill;
pub(crate) mod slot_rows;
pub(crate) mod slots;
pub(crate) mod spare;
pub(crate) mod table_forms;
pub(crate) mod tails;
pub(crate) mod timed_router;
pub(crate) mod ways_back;
