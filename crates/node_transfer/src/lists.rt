// Lists of cells and of mail.
use crate::cell::NodeCell;
use cell_stages::Mail;
use dta_model::Loaded;
use item_list::List;

/// The cells of a network's nodes, in the order of their table.
pub type Cells = List<NodeCell>;

/// The mail of a network's links, in the order of their table.
pub type Mails = List<Mail>;

/// The parts of a loading at the start of step 0: the cell of each node, the mail of each link,
/// and for each vehicle a journey without entries and arrival.
#[derive(Drop)]
pub struct Opening {
    pub cells: Cells,
    pub mail: Mails,
    pub loaded: Loaded,
}
