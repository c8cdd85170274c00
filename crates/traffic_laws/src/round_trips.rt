// Round trips: what one command writes another one reads.
ghost use Rattle.traffic_laws.specs.RoundTrips.{AnAuditSaysYes, LinkTimesAreReadBack};
ghost use Rattle.traffic_laws.specs.RoundTrips.{RoutesAreReadBack};

/// The link times of a loading, written as `assign` writes them, are accepted as a table of link
/// times, and tell the very numbers of the loading.
pub fn link_times_are_read_back()
    ensures { LinkTimesAreReadBack }
{}

/// The agents of a loading, written as `assign` writes them, are accepted as a start table, and
/// tell of each vehicle the very route that it has.
pub fn routes_are_read_back()
    ensures { RoutesAreReadBack }
{}

/// The agents and the link times of a loading, written as `assign` writes them, pass an audit: both
/// tables are accepted, and the audit says yes.
pub fn an_audit_says_yes()
    ensures { AnAuditSaysYes }
{}
