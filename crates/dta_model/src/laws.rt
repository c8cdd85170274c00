// Laws of the definitions. Each is the contract of a function that does nothing.
ghost use Rattle.dta_model.specs.Examples.{two_links_in_a_line};
ghost use Rattle.dta_model.specs.Laws.{ArrivalIsLast, HeadsMove, JourneysEndInOrder, LeftInOrder};
ghost use Rattle.dta_model.specs.Laws.{NoMoveIsLeft, NoneOutside, NothingAtTheStart, QueuesAddUp};
ghost use Rattle.dta_model.specs.Laws.{RoutesAreFollowed, StepsRise, VehiclesAreConserved};
ghost use Rattle.dta_model.specs.Laws.{VisitsEndInOrder};
ghost use Rattle.dta_model.specs.Leavings.{EntriesAddUp, LinksAreLeftAtTheirEnds};
ghost use Rattle.dta_model.specs.Leavings.{OneStepIsSpatial, StepsAreBelow};
ghost use Rattle.dta_model.specs.Orders.{AnyOrder, SameJourneys};
ghost use Rattle.dta_model.specs.Released.{DeparturesAreEven, TripsAreReleased};
ghost use Rattle.dta_model.specs.Sound.{IsSound};

/// The nodes of a step may be taken in any order.
pub fn nodes_in_any_order()
    ensures { AnyOrder }
{}

/// They give the same journeys.
pub fn journeys_in_any_order()
    ensures { SameJourneys }
{}

/// Before the first step no vehicle is due, and none is on a link.
pub fn nothing_at_the_start()
    ensures { NothingAtTheStart }
{}

/// A node's moves in a step end only where it has no next move.
pub fn no_move_is_left()
    ensures { NoMoveIsLeft }
{}

/// A due vehicle waits, is on one link of the table or has arrived, and the three counts add up.
pub fn vehicles_are_conserved()
    ensures { VehiclesAreConserved }
{}

/// The links together hold the vehicles that run.
pub fn queues_add_up()
    ensures { QueuesAddUp }
{}

/// A vehicle moves for the first time, or as the head of its link.
pub fn heads_move()
    ensures { HeadsMove }
{}

/// Links are left in the order of entry: of two visits to one link the one that comes earlier in
/// the trace ends earlier in the trace, or the other hasn't ended.
pub fn links_are_left_in_order()
    ensures { LeftInOrder }
{}

/// A vehicle's moves follow its route.
pub fn routes_are_followed()
    ensures { RoutesAreFollowed }
{}

/// Steps don't fall along a trace.
pub fn steps_rise()
    ensures { StepsRise }
{}

/// Of two visits to one link the earlier one ends no later, or the other hasn't ended.
pub fn visits_end_in_order()
    ensures { VisitsEndInOrder }
{}

/// The moves of a vehicle are its entries, and then perhaps the arrival.
pub fn arrival_is_last()
    ensures { ArrivalIsLast }
{}

/// The same of what a loading gives: of two visits to one link the one that begins earlier ends no
/// later, or the other hasn't ended.
pub fn journeys_end_in_order()
    ensures { JourneysEndInOrder }
{}

/// A table releases as many trips as its volumes make whole vehicles, numbered in order by
/// departures. Each departs within the window of its row.
pub fn trips_are_released()
    ensures { TripsAreReleased }
{}

/// A row's departures are even over its window: over steps within it fewer vehicles depart than
/// the share of these steps and one.
pub fn departures_are_even()
    ensures { DeparturesAreEven }
{}

/// No vehicle is on a link that isn't in the table.
pub fn none_outside()
    ensures { NoneOutside }
{}

/// Each move of the first steps is in one of them.
pub fn steps_are_below()
    ensures { StepsAreBelow }
{}

/// Who entered a link is on it or has left it.
pub fn entries_add_up()
    ensures { EntriesAddUp }
{}

/// Where a backward wave takes one step over a link, its room is that of the spatial queue.
pub fn one_step_is_spatial()
    ensures { OneStepIsSpatial }
{}

/// A link is left in a step by the moves that the node at its end makes with vehicles that were on
/// it at the start of the step.
pub fn links_are_left_at_their_ends()
    ensures { LinksAreLeftAtTheirEnds }
{}

/// A loading can be sound: that of two links in a line is.
pub fn two_links_are_sound()
    ensures { IsSound two_links_in_a_line }
{}
