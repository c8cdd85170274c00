// The parts of a loading at the start of step 0.
pub(crate) mod cells;
pub(crate) mod lines;
pub(crate) mod links;
pub(crate) mod opening;
