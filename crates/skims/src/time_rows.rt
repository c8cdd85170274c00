// Rows of a table of link times.
use item_list::List;

/// What a table of link times says of a bucket of a link: how many vehicles entered, and the steps
/// that the link takes.
#[derive(Clone, Copy, Debug, PartialEq, Eq, Drop)]
pub struct TimeRow {
    pub entered: u64,
    pub travel: u32,
}

/// Rows of a table of link times: link by link, and within a link bucket by bucket.
pub type TimeRows = List<TimeRow>;
