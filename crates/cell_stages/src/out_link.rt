// An out-link of a node.
use crate::Mail;
use capacity_credits::Meter;
use link_queues::Line;
use net_core::LinkNo;

/// Those that wait for an out-link: due by now, and later.
#[derive(Drop)]
pub struct Waiting {
    pub later: Line,
    pub due: Line,
}

/// An out-link: who waits for it, who enters it in the step, and the place of its mail.
#[derive(Drop)]
pub struct OutLink {
    pub link: LinkNo,
    pub inflow: Meter,
    pub waiting: Waiting,
    pub batch: Line,
    pub mail: Mail,
}
