// Laws of the network's definitions.
ghost use Rattle.net_core.specs.Turns.{ListedTurnsCostTheirRows, OtherTurnsAreFree};
ghost use Rattle.net_core.specs.Zones.{ZonesDiffer};

/// The law that no zone has two numbers.
pub fn zones_differ()
    ensures { ZonesDiffer }
{}

/// The laws of what a turn costs: what its row says where it is listed, and nothing at a node at
/// which no turn is listed.
pub fn turns_cost_their_rows()
    ensures listed { ListedTurnsCostTheirRows }
    ensures free { OtherTurnsAreFree }
{}
