// The rows of an agent table.
use desk_io::Text;
use item_list::List;
use start_table::Ids;

/// The most rows of an agent table.
pub const MOST_AGENT_ROWS: usize = 2_000_000;

/// What an agent table says of a vehicle: its number, its zones, its departure, its arrival if it
/// has one, its status, the identifiers of its links, and the steps in which it entered them.
#[derive(Drop)]
pub struct AgentRow {
    pub agent: u64,
    pub origin: u64,
    pub destination: u64,
    pub departure: u64,
    pub arrival: Option<u64>,
    pub status: Text,
    pub links: Ids,
    pub entries: Ids,
}

/// The rows of an agent table, in its order.
pub type AgentRows = List<AgentRow>;
