// The scenarios of a sweep.
use desk_io::Text;
use item_list::List;

/// The assignment for one multiple of the demand: its scale in thousandths, and the texts that
/// `assign` puts to Agent, LinkTime, OriginWait, Gap and Report.
#[derive(Drop)]
pub struct Scenario {
    pub scale: u64,
    pub agent: Text,
    pub link_time: Text,
    /// What goes to origin_wait.csv with costs of trips, and empty with link times.
    pub origin_wait: Text,
    pub gap: Text,
    pub report: Text,
}

/// Scenarios, in the order of their scales.
pub type Sweep = List<Scenario>;
