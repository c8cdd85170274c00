// What the iterations of an assignment give.
use crate::counted::Counted;
use assignment::Assigned;
use dta_model::Steps;

/// What an assignment gives: its last iteration and the gaps of all, the iterations in which the
/// vehicles took their routes where there is a start table, and the counts over the last loading
/// where the command asks for them.
#[derive(Drop)]
pub struct Iterated {
    /// The last iteration, and the gaps of all.
    pub last: Assigned,
    /// The iterations in which the vehicles took their routes.
    pub since: Option<Steps>,
    /// The counts over the last loading.
    pub counts: Counted,
}
