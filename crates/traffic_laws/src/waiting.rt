// Waiting.
ghost use Rattle.traffic_laws.specs.Waiting.{HeadsAreHeld, OriginsAreHeld};

/// The first vehicle on a link that is ready and doesn't move is held by an allowance or a room
/// that is used up.
pub fn a_ready_vehicle_is_held_for_a_reason()
    ensures { HeadsAreHeld }
{}

/// A due vehicle that doesn't enter its first link waits because the link's allowance or its room
/// is used up.
pub fn an_origin_is_held_for_a_reason()
    ensures { OriginsAreHeld }
{}
