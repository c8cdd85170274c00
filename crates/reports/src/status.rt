// What has become of a vehicle at the horizon.
ghost use Rattle.std.specs.Prelude.{◌≡◌, ◌≤◌, length};
ghost use Rattle.reports.specs.Texts.{routed_status, status_name, told_status};

use dta_model::Journey;

/// The status of a vehicle, as Agent names it.
#[derive(Clone, Copy, Debug, PartialEq, Eq)]
pub(crate) enum AgentStatus {
    /// It has no route.
    Unrouted,
    /// It has arrived.
    Arrived,
    /// It is on a link.
    Running,
    /// It has a route, and has entered no link.
    Waiting,
}

/// The status of a vehicle that has a route.
pub(crate) fn status_of(journey: &Journey) -> AgentStatus
    ensures { result ≡ routed_status journey.now }
{
    if journey.arrival.is_some() {
        AgentStatus::Arrived
    } else if journey.entries.as_slice().is_empty() {
        AgentStatus::Waiting
    } else {
        AgentStatus::Running
    }
}

impl AgentStatus {
    /// The name of a status.
    pub(crate) fn name(self) -> &'static str
        ensures name { result.now ≡ status_name self }
        ensures short { length result.now ≤ 8 }
    {
        match self {
            AgentStatus::Unrouted => "unrouted",
            AgentStatus::Arrived => "arrived",
            AgentStatus::Running => "running",
            AgentStatus::Waiting => "waiting",
        }
    }
}

/// The status of a vehicle as Agent names it: of one that has a route or not, and by its journey.
pub fn status_text(routed: bool, journey: &Journey) -> &'static str
    ensures { result.now ≡ status_name (told_status routed journey.now) }
{
    if routed {
        status_of(journey).name()
    } else {
        AgentStatus::Unrouted.name()
    }
}
