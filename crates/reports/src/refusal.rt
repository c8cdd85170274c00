// Refusals of a run.
use desk_io::Table;
use row_reader::TableFault;

/// The most entries of a skim.
pub const MOST_SKIM_ENTRIES: u64 = 16_777_216;

/// The most links times steps of a sweep.
pub const MOST_SWEEP_LINK_STEPS: u64 = 16_777_216;

/// Why a run does none of its work.
#[derive(Clone, Copy, Debug, PartialEq, Eq)]
pub enum Refusal {
    /// The words aren't in the grammar.
    Usage,
    /// A table was read whole and has this first fault.
    Table(TableFault),
    /// This table couldn't be read.
    Read(Table),
    /// This table has more bytes than the limit.
    LongTable(Table),
    /// So many links over so many steps are above the limit.
    Cells { links: u32, steps: u32 },
    /// At this line of the demand table the vehicles, so many, are above the limit.
    Vehicles { line: u64, total: u64 },
    /// A skim of so many entries, pairs of zones times starts, is above the limit.
    SkimPairs { number: u128 },
    /// So many links over so many steps are above the limit of a sweep.
    SweepCells { links: u32, steps: u32 },
}
