// A law of the definitions. It is the contract of a function that does nothing.
ghost use Rattle.link_times.specs.Orders.{SameTimes};

/// The nodes of a step may be taken in any order: the table of link times is the same.
pub fn link_times_in_any_order()
    ensures { SameTimes }
{}
