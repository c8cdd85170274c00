// Walks with their times.
use dta_model::Route;

/// A chosen walk, and the least time, which it takes.
#[derive(Drop)]
pub struct Walk {
    pub time: u64,
    pub route: Route,
}
