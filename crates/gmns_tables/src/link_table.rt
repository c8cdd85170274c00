// Link tables.
ghost use Rattle.std.specs.Prelude.{◌≡◌, ◌≤◌, All, None, IfOk};
ghost use Rattle.fixed_units.specs.Units.{free_steps_of};
ghost use Rattle.fixed_units.specs.declared.link.TheConstants.{MOST_FREE_STEPS, MOST_LANES};
ghost use Rattle.fixed_units.specs.declared.link.TheConstants.{MOST_STEP};
ghost use Rattle.fixed_units.specs.declared.quantity.TheConstants.{MOST_THOUSANDTHS};
ghost use Rattle.row_reader.specs.Columns.{text};
ghost use Rattle.row_reader.specs.FirstFault.{Tells, TellsRow};
ghost use Rattle.row_reader.specs.Records.{records};
ghost use Rattle.row_reader.specs.declared.faults.Column.TheVariants as column;
ghost use Rattle.net_core.specs.Ids.{place_of};
ghost use Rattle.net_core.specs.Rates.{AreLinkWindows};
ghost use Rattle.net_core.specs.Rows.{IsBetween, IsLinkInRange, link_ids};
ghost use Rattle.net_core.specs.declared.rows.TheConstants.{MOST_LINKS};
ghost use Rattle.gmns_tables.specs.Links.{free_speed_of, is_undirected as is_undirected_of};
ghost use Rattle.gmns_tables.specs.Links.{lanes_of, link_of, link_verdict, steps_told};
ghost use Rattle.gmns_tables.specs.RowsWithWindows.{AreLinkRows, IsNextLink, rows_of};
ghost use Rattle.fixed_units.specs.Units.{IsUnits};

use crate::links::LinkRows;
use crate::names::known_node;
use crate::nodes::NodeRows;
use crate::windows::{WindowsOf, read_windows};
use crate::with_windows::WithWindows;
use desk_io::Table;
use fixed_units::{
    Length, MOST_LANES, MOST_THOUSANDTHS, Speed, SpeedUnit, Units, ff_steps, length, link_rate,
    speed, storage,
};
use net_core::{LinkRow, MOST_LINKS, Windows};
use row_reader::{
    Accepted, Code, Column, Complaint, Fields, RowRefusal, TableRefusal, complain, read_rows,
    unless, within,
};
use std::alloc::{AllocError, Global};

// The lanes of a link whose field is empty, in thousandths: one.
const DEFAULT_LANES: u64 = 1000;

// The free speed of a link whose field is empty, in thousandths of a kilometre per hour.
const DEFAULT_SPEED: u64 = 50_000;

// The least free speed of a link, in thousandths.
const LEAST_SPEED: u64 = 1;

// The capacity of a lane of a link whose field is empty, in thousandths of a vehicle per hour.
const DEFAULT_CAPACITY: u64 = 1_800_000;

// A link table that is being read.
#[derive(Drop)]
struct LinkTable<'a> {
    alloc: Global,
    nodes: &'a NodeRows,
    units: Units,
    rows: LinkRows,
    ghost sound: { IsUnits units },
}

impl Accepted for LinkTable<'_> {
    type Item = WithWindows<LinkRow>;

    ghost limit = { MOST_LINKS };

    ghost rows = { λ t. t.rows };

    ghost checks = { λ t. link_of t.nodes.now t.units };

    ghost fits = { λ t. IsNextLink t.rows };

    fn most(&self) -> usize {
        MOST_LINKS
    }

    #[tactic(auto, unfolding(crate::specs::Links::link_of))]
    fn row(&self, fields: &Fields<'_>) -> Result<WithWindows<LinkRow>, RowRefusal> {
        let units = &self.units;
        let id = fields.identifier(Column::LinkId)?;
        unless(self.rows.contains(id), Code::E6, Column::LinkId)?;
        let from = known_node(self.nodes, Column::FromNodeId, fields)?;
        let to = known_node(self.nodes, Column::ToNodeId, fields)?;
        unless(is_undirected(fields), Code::E10, Column::Directed)?;
        let size = fields.quantity(Column::Length)?;
        let size = length(size, units.length);
        let lanes = lanes(fields)?;
        let speed = free_speed(units.speed, fields)?;
        let free = free_steps(size, speed, units.delta)?;
        let capacity = fields.quantity_or(DEFAULT_CAPACITY, Column::Capacity)?;
        let by_step = fields.text(Column::CapacityByStep);
        let windows = read_windows(self.alloc, WindowsOf::Link(lanes), by_step)?;
        let row = LinkRow {
            id,
            from,
            to,
            micrometres: size.micrometres,
            free,
            storage: storage(size, lanes, units.jam),
            rate: link_rate(capacity, lanes),
        };
        Ok(WithWindows { row, windows })
    }

    fn push(&mut self, link: WithWindows<LinkRow>) -> Result<(), AllocError> {
        self.rows.push(link)
    }
}

/// Reads a link table of GMNS over its nodes: the columns `link_id`, `from_node_id`, `to_node_id`
/// and `length`, and the optional columns `directed`, `lanes`, `free_speed`, `capacity` and
/// `capacity_by_step`. Lengths and speeds are in the units of the run, capacities in vehicles per
/// hour and lane. Where a field is empty there is one lane, a speed of 50 kilometres per hour in
/// either unit of speed, a capacity of 1800, and the same capacity in all steps. The refusal is
/// the table's first fault, or want of memory.
pub fn read_links(
    alloc: Global,
    nodes: &NodeRows,
    text: &[u8],
    units: &Units,
) -> Result<LinkRows, TableRefusal>
    requires { IsUnits units.now }
    ensures rows { Tells (link_verdict nodes.now units.now (records text.now)) result }
    ensures sound { IfOk result AreLinkRows }
    ensures between { IfOk result (λ links. All (IsBetween nodes.now) (rows_of links)) }
{
    let table = LinkTable {
        alloc,
        nodes,
        units: *units,
        rows: LinkRows::new(alloc),
    };
    let required = [
        Column::LinkId,
        Column::FromNodeId,
        Column::ToNodeId,
        Column::Length,
    ];
    let table = read_rows(alloc, Table::Link, &required, text, table)?;
    // What holds of all accepted links is known where they are seen.
    let _seen = table.rows.as_slice();
    Ok(table.rows)
}

// Whether a record says that its link goes both ways.
#[tactic(auto, unfolding(crate::specs::Links::is_undirected))]
fn is_undirected(fields: &Fields<'_>) -> bool
    ensures { result ≡ is_undirected_of (text fields.now column.Directed) }
{
    let text = fields.text(Column::Directed);
    (text.eq_ignore_ascii_case(b"0") || text.eq_ignore_ascii_case(b"0.0"))
        || (text.eq_ignore_ascii_case(b"false") || text.eq_ignore_ascii_case(b"no"))
}

// The lanes of a record, in thousandths.
fn lanes(fields: &Fields<'_>) -> Result<u32, Complaint>
    ensures value { result ≡ lanes_of (text fields.now column.Lanes) }
    ensures most { IfOk result (λ n. n ≤ MOST_LANES) }
{
    let lanes = fields.quantity_or(DEFAULT_LANES, Column::Lanes)?;
    let lanes = within(Column::Lanes, 0, u64::from(MOST_LANES), lanes)?;
    Ok(lanes as u32)
}

// The free speed of a record, in a unit.
#[tactic(auto, unfolding(crate::specs::Links::free_speed_of))]
fn free_speed(unit: SpeedUnit, fields: &Fields<'_>) -> Result<Speed, Complaint>
    ensures value { result ≡ free_speed_of unit (text fields.now column.FreeSpeed) }
    ensures moves { IfOk result (λ speed. 1 ≤ speed.micrometres_per_hour) }
{
    match fields.optional_quantity(Column::FreeSpeed)? {
        Some(thousandths) => {
            let thousandths = within(
                Column::FreeSpeed,
                LEAST_SPEED,
                MOST_THOUSANDTHS,
                thousandths,
            )?;
            Ok(speed(thousandths, unit))
        }
        None => Ok(speed(DEFAULT_SPEED, SpeedUnit::Kmh)),
    }
}

// The free-flow steps of a link, or that it is too slow.
fn free_steps(length: Length, speed: Speed, delta: u32) -> Result<u32, Complaint>
    requires moves { 1 ≤ speed.micrometres_per_hour }
    requires step { 1 ≤ delta }
    requires short { delta ≤ MOST_STEP }
    ensures value { result ≡ steps_told (free_steps_of length speed delta) }
    ensures least { IfOk result (λ steps. 1 ≤ steps) }
    ensures most { IfOk result (λ steps. steps ≤ MOST_FREE_STEPS) }
{
    match ff_steps(length, speed, delta) {
        Ok(steps) => Ok(steps),
        Err(_) => Err(complain(Code::E11, Column::FreeSpeed)),
    }
}
