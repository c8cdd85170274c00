// Laws of what cells hold. Each is the contract of a function that does nothing.
ghost use Rattle.cell_stages.specs.HandOver.{NodesHoldAll};
ghost use Rattle.cell_stages.specs.Laws.{LeavingsPass, LeavingsStay, RoomsAddUp, RoomsAreTold};
ghost use Rattle.cell_stages.specs.Laws.{StepsHaveTwoStages};
ghost use Rattle.cell_stages.specs.OnePass.{OnePassIsEnough};
ghost use Rattle.cell_stages.specs.Transfers.{FirstWaits, HeadsOfLines, LinesGather, MovesCount};
ghost use Rattle.cell_stages.specs.Transfers.{MovesPass, RidersMove, RidersTell, RoutesLeadOn};
ghost use Rattle.cell_stages.specs.Transfers.{WaitingLinesStay};

/// All nodes together hold the vehicles that have routes, each once and as the trace makes it.
pub fn nodes_hold_all()
    ensures { NodesHoldAll }
{}

/// An in-line of the next step is what the transfer left of it, and then the batch.
pub fn lines_gather()
    ensures { LinesGather }
{}

/// A waiting line of the next step is what the transfer left of it.
pub fn waiting_lines_stay()
    ensures { WaitingLinesStay }
{}

/// One pass over a node's links makes its moves.
pub fn one_pass_is_enough()
    ensures { OnePassIsEnough }
{}

/// The head that may move is the first that is left of the line at the start of the step.
pub fn heads_of_lines()
    ensures { HeadsOfLines }
{}

/// Who is admitted is the first of the waiting line, where departures don't fall.
pub fn the_first_waits()
    ensures { FirstWaits }
{}

/// A rider on a link tells its last entry and its next target.
pub fn riders_tell()
    ensures { RidersTell }
{}

/// A rider after one more move.
pub fn riders_move()
    ensures { RidersMove }
{}

/// What one move changes of lines and batches.
pub fn moves_pass()
    ensures { MovesPass }
{}

/// How the counts of a node grow by a move.
pub fn moves_count()
    ensures { MovesCount }
{}

/// The next link of a vehicle on a link begins where that one ends, and there is a turn to it.
pub fn routes_lead_on()
    ensures { RoutesLeadOn }
{}

/// Stage 2 t of a cell or a mail is before the transfers of step t, and stage 2 t + 1 after them.
pub fn steps_have_two_stages()
    ensures { StepsHaveTwoStages }
{}

/// What an in-link knows of those who left it stays from a transfer to the next step.
pub fn leavings_stay()
    ensures { LeavingsStay }
{}

/// A transfer puts the number that it took from the line first, and the oldest number is dropped.
pub fn leavings_pass()
    ensures { LeavingsPass }
{}

/// A room is what is left of the storage beside the riders on the link and the spaces of those who
/// left it lately.
pub fn rooms_add_up()
    ensures { RoomsAddUp }
{}

/// Before each step the mail of a link tells its room.
pub fn rooms_are_told()
    ensures { RoomsAreTold }
{}
