// The exit of an in-link.
use crate::LimitedTurns;
use capacity_credits::Meter;

/// How vehicles leave an in-link: after how many steps, at which rate, and by which turns that
/// have a penalty or a limit.
#[derive(Drop)]
pub struct Exit {
    pub free: u32,
    pub outflow: Meter,
    pub turns: LimitedTurns,
}
