// Laws of the contents of cells. Each is the contract of a function that does nothing.
ghost use Rattle.node_transfer.specs.Counts.{CountsAddUp};
ghost use Rattle.node_transfer.specs.Laws.{CellsGather, CellsHandOver, CellsHoldAll};
ghost use Rattle.node_transfer.specs.Laws.{MailGoesByLinks};
ghost use Rattle.node_transfer.specs.Rest.{QuietNodesStayIdle};

/// A mail that is put into the place of a link is the mail of that link.
pub fn mail_goes_by_links()
    ensures { MailGoesByLinks }
{}

/// All cells together hold the vehicles that have routes, each once and as the trace makes it.
pub fn cells_hold_all()
    ensures { CellsHoldAll }
{}

/// A cell of the next step is what the transfer left of it, with the batch at the end of each
/// in-line.
pub fn cells_gather()
    ensures { CellsGather }
{}

/// All cells together, at the horizon, hand over the journeys of the loading.
pub fn cells_hand_over()
    ensures { CellsHandOver }
{}

/// At a node where nobody is ready nobody moves: a transfer leaves its cell as it is, and so does
/// a gather where nobody comes.
pub fn quiet_nodes_stay_idle()
    ensures { QuietNodesStayIdle }
{}

/// The counts of all cells after a number of steps add up to those of the loading: who waits and
/// is due, who is on a link, and who has arrived.
pub fn counts_add_up()
    ensures { CountsAddUp }
{}
