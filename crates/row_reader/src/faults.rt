// What a table's fault tells: the table, the line, a code and a column, and the names by which
// texts call them.
ghost use Rattle.std.specs.Prelude.{◌≡◌};
ghost use Rattle.row_reader.specs.Faults.{fault_of};
ghost use Rattle.row_reader.specs.Names.{code_name as code_name_of, column_name as column_name_of};
ghost use Rattle.row_reader.specs.Names.{table_name as table_name_of};
ghost use Rattle.row_reader.specs.declared.faults.TableRefusal.TheVariants as refusal;

use desk_io::Table;

/// What is wrong at a place of a table.
#[derive(Clone, Copy, Debug, PartialEq, Eq)]
pub enum Code {
    /// MissingColumn: the header lacks a required column.
    E1,
    /// BadRecord: a record that isn't UTF-8, or isn't as long as the header.
    E2,
    /// EmptyField: a required field is empty.
    E3,
    /// NotNumber: a field isn't of the form of its kind of number.
    E4,
    /// OutOfRange: a number isn't in the range of its column.
    E5,
    /// Duplicate: an earlier row has the same identifier, or the same two links.
    E6,
    /// UnknownNode: no node has this identifier.
    E7,
    /// UnknownLink: no link has this identifier.
    E8,
    /// WrongTurn: the link doesn't end or begin at the node of its row.
    E9,
    /// Undirected: a link that isn't directed.
    E10,
    /// TooSlow: the free-flow time is too long.
    E11,
    /// TooMany: the table has too many rows.
    E12,
    /// Disagrees: a row isn't the one that another table asks for at its place, or is missing.
    E13,
}

/// A column of a table, named in each table that has it. `NoColumn` stands for the whole record.
#[derive(Clone, Copy, Debug, PartialEq, Eq)]
pub enum Column {
    NodeId,
    ZoneId,
    LinkId,
    FromNodeId,
    ToNodeId,
    Directed,
    Length,
    Lanes,
    FreeSpeed,
    Capacity,
    IbLinkId,
    ObLinkId,
    Penalty,
    OZoneId,
    DZoneId,
    Volume,
    FromStep,
    ToStep,
    Entered,
    TravelSteps,
    FreeSteps,
    CapacityByStep,
    AgentId,
    DepartureStep,
    ArrivalStep,
    Status,
    LinkIds,
    EntrySteps,
    NoColumn,
}

// How many columns there are, no column among them.
pub(crate) const COLUMNS: usize = 29;

// Each column, at its number.
pub(crate) const ALL_COLUMNS: [Column; COLUMNS] = [
    Column::NodeId,
    Column::ZoneId,
    Column::LinkId,
    Column::FromNodeId,
    Column::ToNodeId,
    Column::Directed,
    Column::Length,
    Column::Lanes,
    Column::FreeSpeed,
    Column::Capacity,
    Column::IbLinkId,
    Column::ObLinkId,
    Column::Penalty,
    Column::OZoneId,
    Column::DZoneId,
    Column::Volume,
    Column::FromStep,
    Column::ToStep,
    Column::Entered,
    Column::TravelSteps,
    Column::FreeSteps,
    Column::CapacityByStep,
    Column::AgentId,
    Column::DepartureStep,
    Column::ArrivalStep,
    Column::Status,
    Column::LinkIds,
    Column::EntrySteps,
    Column::NoColumn,
];

/// A check that fails within a line.
#[derive(Clone, Copy, Debug, PartialEq, Eq)]
pub struct Complaint {
    pub code: Code,
    pub column: Column,
}

/// Where a table is wrong, and how. The line is the number of the record, where the header is 1.
#[derive(Clone, Copy, Debug, PartialEq, Eq)]
pub struct TableFault {
    pub table: Table,
    pub line: u64,
    pub code: Code,
    pub column: Column,
}

/// Why a table gives no rows.
#[derive(Clone, Copy, Debug, PartialEq, Eq)]
pub enum TableRefusal {
    /// The table's first fault.
    Fault(TableFault),
    /// Memory is wanting.
    Memory,
}

/// A table's name.
pub fn table_name(table: Table) -> &'static str
    ensures { result.now ≡ table_name_of table }
{
    match table {
        Table::Node => "node",
        Table::Link => "link",
        Table::Movement => "movement",
        Table::Demand => "demand",
        Table::Start => "start",
        Table::Times => "times",
    }
}

/// A code, and after a space its name.
pub fn code_name(code: Code) -> &'static str
    ensures { result.now ≡ code_name_of code }
{
    match code {
        Code::E1 => "E1 MissingColumn",
        Code::E2 => "E2 BadRecord",
        Code::E3 => "E3 EmptyField",
        Code::E4 => "E4 NotNumber",
        Code::E5 => "E5 OutOfRange",
        Code::E6 => "E6 Duplicate",
        Code::E7 => "E7 UnknownNode",
        Code::E8 => "E8 UnknownLink",
        Code::E9 => "E9 WrongTurn",
        Code::E10 => "E10 Undirected",
        Code::E11 => "E11 TooSlow",
        Code::E12 => "E12 TooMany",
        Code::E13 => "E13 Disagrees",
    }
}

/// A column's name in its table, or a hyphen for no column.
pub fn column_name(column: Column) -> &'static str
    ensures { result.now ≡ column_name_of column }
{
    match column {
        Column::NodeId => "node_id",
        Column::ZoneId => "zone_id",
        Column::LinkId => "link_id",
        Column::FromNodeId => "from_node_id",
        Column::ToNodeId => "to_node_id",
        Column::Directed => "directed",
        Column::Length => "length",
        Column::Lanes => "lanes",
        Column::FreeSpeed => "free_speed",
        Column::Capacity => "capacity",
        Column::IbLinkId => "ib_link_id",
        Column::ObLinkId => "ob_link_id",
        Column::Penalty => "penalty",
        Column::OZoneId => "o_zone_id",
        Column::DZoneId => "d_zone_id",
        Column::Volume => "volume",
        Column::FromStep => "from_step",
        Column::ToStep => "to_step",
        Column::Entered => "entered",
        Column::TravelSteps => "travel_steps",
        Column::FreeSteps => "free_steps",
        Column::CapacityByStep => "capacity_by_step",
        Column::AgentId => "agent_id",
        Column::DepartureStep => "departure_step",
        Column::ArrivalStep => "arrival_step",
        Column::Status => "status",
        Column::LinkIds => "link_ids",
        Column::EntrySteps => "entry_steps",
        Column::NoColumn => "-",
    }
}

// What a complaint at a line refuses.
pub(crate) fn refusal_at(table: Table, line: u64, complaint: Complaint) -> TableRefusal
    ensures { result ≡ refusal.Fault (fault_of table line complaint) }
{
    TableRefusal::Fault(TableFault {
        table,
        line,
        code: complaint.code,
        column: complaint.column,
    })
}
