// Laws of the definitions. Each is the contract of a function that does nothing.
ghost use Rattle.counts.specs.Orders.{SameThroughCounts, SameTurnCounts};

/// The nodes of a step may be taken in any order: the turn counts are the same.
pub fn turn_counts_in_any_order()
    ensures { SameTurnCounts }
{}

/// And so are the through counts of every link.
pub fn through_counts_in_any_order()
    ensures { SameThroughCounts }
{}
