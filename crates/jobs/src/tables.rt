// The tables of a run, read and checked one after the other.
ghost use Rattle.std.specs.Prelude.{◌≡◌, [], All, Ok, Err, IfOk, IfErr};
ghost use Rattle.desk_io.specs.declared.desk.Table.TheVariants as table;
ghost use Rattle.demand.specs.DemandRows.{AreDemandCells};
ghost use Rattle.gmns_tables.specs.Net.{listed_turns, net_of as joined};
ghost use Rattle.gmns_tables.specs.RowsWithWindows.{AreLinkRows, AreTurnRows, rows_of};
ghost use Rattle.dta_words.specs.Ranges.{AreSettings};
ghost use Rattle.dta_words.specs.declared.command.Command.TheVariants as command;
ghost use Rattle.dta_words.specs.declared.command.Settings.{Settings};
ghost use Rattle.net_core.specs.Network.{IsNet};
ghost use Rattle.net_core.specs.Rows.{AreNodes, IsBetween, IsTurning};
ghost use Rattle.start_table.specs.Starts.{AreStartRows};
ghost use Rattle.row_reader.specs.FirstFault.{Tells};
ghost use Rattle.jobs.specs.Calls.{Accepts, AcceptsAll, IsWhole, OnlyReads, rows_in_roads};
ghost use Rattle.jobs.specs.Calls.{rows_in_tables, rows_with_turns, rows_in_network};
ghost use Rattle.jobs.specs.Calls.{with_agent_rows, with_demand_cells, with_start_rows};
ghost use Rattle.jobs.specs.Calls.{with_time_rows};
ghost use Rattle.skims.specs.GivenTimes.{AreRowsOf};
ghost use Rattle.jobs.specs.Inputs.{Auditing, kind_of};
ghost use Rattle.jobs.specs.TableRows.{TableRows, all_tables, net_of, network_tables, no_rows};
ghost use Rattle.jobs.specs.TableRows.{road_rows, road_tables};
ghost use Rattle.jobs.specs.Stops.{StopsAt};
ghost use Rattle.jobs.specs.Tables.{turns_of};

use crate::stop::Stop;
use agent_table::{AgentRows, read_agents};
use demand::read_demand;
use desk_io::{Desk, MOST_TABLE_BYTES, ReadRefusal, Table, read_table};
use dta_model::DemandCell;
use dta_words::Settings;
use gmns_tables::{LinkRows, NodeRows, TurnRows, read_links, read_movements, read_nodes};
use net_core::Net;
use reports::Refusal;
use row_reader::TableRefusal;
use skims::{TimeRows, read_times};
use start_table::{StartRows, read_start};
use std::alloc::Global;

/// The rows of a network's nodes and links.
#[derive(Drop)]
pub(crate) struct Roads {
    pub(crate) nodes: NodeRows,
    pub(crate) links: LinkRows,
}

// Reads the bytes of a table.
fn bytes_of<D: Desk>(alloc: Global, desk: &mut D, table: Table) -> Result<Vec<u8>, Stop>
    ensures reads { (settings : Settings) (rows : TableRows)
        → OnlyReads (IsWhole table) (StopsAt settings table rows) (D.state desk.old)
        (D.state desk.new) result }
{
    match read_table(alloc, desk, table, MOST_TABLE_BYTES) {
        Ok(bytes) => Ok(bytes),
        Err(ReadRefusal::Failed) => Err(Stop::Refused(Refusal::Read(table))),
        Err(ReadRefusal::TooLong) => Err(Stop::Refused(Refusal::LongTable(table))),
        Err(ReadRefusal::Memory) => Err(Stop::Memory),
    }
}

// Reads and checks the node table.
fn accept_nodes<D: Desk>(alloc: Global, desk: &mut D) -> Result<NodeRows, Stop>
    ensures reads { (settings : Settings)
        → Accepts settings table.Node no_rows (λ nodes. road_rows nodes [])
        (D.state desk.old) (D.state desk.new) result }
    ensures sound { IfOk result AreNodes }
{
    let bytes = bytes_of(alloc, desk, Table::Node)?;
    Ok(read_nodes(alloc, &bytes)?)
}

// Reads and checks the link table over accepted nodes.
fn accept_links<D: Desk>(
    alloc: Global,
    desk: &mut D,
    settings: &Settings,
    nodes: &NodeRows,
) -> Result<LinkRows, Stop>
    requires settings { AreSettings settings.now }
    ensures reads { Accepts settings.now table.Link (road_rows nodes.now []) (road_rows nodes.now)
        (D.state desk.old) (D.state desk.new) result }
    ensures sound { IfOk result AreLinkRows }
    ensures between { IfOk result (λ links. All (IsBetween nodes.now) (rows_of links)) }
{
    let bytes = bytes_of(alloc, desk, Table::Link)?;
    Ok(read_links(alloc, nodes, &bytes, &settings.units)?)
}

/// Reads and checks the node table, and then the link table over its nodes.
pub(crate) fn accept_roads<D: Desk>(
    alloc: Global,
    desk: &mut D,
    settings: &Settings,
) -> Result<Roads, Stop>
    requires settings { AreSettings settings.now }
    ensures reads { AcceptsAll settings.now road_tables no_rows rows_in_roads (D.state desk.old)
        (D.state desk.new) result }
    ensures nodes { IfOk result (λ roads. AreNodes roads.nodes) }
    ensures links { IfOk result (λ roads. AreLinkRows roads.links) }
    ensures between { IfOk result (λ roads. All (IsBetween roads.nodes) (rows_of roads.links)) }
{
    let nodes = accept_nodes(alloc, desk)?;
    let links = accept_links(alloc, desk, settings, &nodes)?;
    Ok(Roads { nodes, links })
}

// The turns of a movement table; one of zero bytes stands for none.
fn turns_in(
    alloc: Global,
    roads: &Roads,
    bytes: &[u8],
    settings: &Settings,
) -> Result<Option<TurnRows>, TableRefusal>
    requires settings { AreSettings settings.now }
    ensures turns { IfOk result (λ turns.
        turns_of settings.now (rows_in_roads roads.now) bytes.now ≡ Ok (listed_turns turns)) }
    ensures refused { IfErr result (λ why.
        Tells (turns_of settings.now (rows_in_roads roads.now) bytes.now) (Err why)) }
    ensures sound { IfOk result (λ turns. AreTurnRows (listed_turns turns)) }
    ensures turning { IfOk result (λ turns.
        All (IsTurning (rows_of roads.now.links)) (rows_of (listed_turns turns))) }
{
    if bytes.is_empty() {
        Ok(None)
    } else {
        let turns = read_movements(alloc, &roads.nodes, &roads.links, bytes, &settings.units)?;
        Ok(Some(turns))
    }
}

// Reads and checks the movement table over accepted nodes and links.
fn accept_turns<D: Desk>(
    alloc: Global,
    desk: &mut D,
    settings: &Settings,
    roads: &Roads,
) -> Result<Option<TurnRows>, Stop>
    requires settings { AreSettings settings.now }
    ensures reads { Accepts settings.now table.Movement (rows_in_roads roads.now)
        (rows_with_turns roads.now) (D.state desk.old) (D.state desk.new) result }
    ensures sound { IfOk result (λ turns. AreTurnRows (listed_turns turns)) }
    ensures turning { IfOk result (λ turns.
        All (IsTurning (rows_of roads.now.links)) (rows_of (listed_turns turns))) }
{
    let bytes = bytes_of(alloc, desk, Table::Movement)?;
    Ok(turns_in(alloc, roads, &bytes, settings)?)
}

// Reads and checks the demand table.
fn accept_demand_cells<D: Desk>(
    alloc: Global,
    desk: &mut D,
    settings: &Settings,
) -> Result<Vec<DemandCell>, Stop>
    requires settings { AreSettings settings.now }
    ensures reads { (rows : TableRows)
        → Accepts settings.now table.Demand rows (with_demand_cells rows) (D.state desk.old)
        (D.state desk.new) result }
    ensures sound { IfOk result (λ demand_cells.
        AreDemandCells settings.now.period demand_cells.items) }
{
    let bytes = bytes_of(alloc, desk, Table::Demand)?;
    Ok(read_demand(alloc, &bytes, settings.period)?)
}

/// Reads and checks the start table.
pub(crate) fn accept_start<D: Desk>(alloc: Global, desk: &mut D) -> Result<StartRows, Stop>
    ensures reads { (settings : Settings) (rows : TableRows) → settings.command ≡ command.Assign
        → Accepts settings table.Start rows (with_start_rows rows)
        (D.state desk.old) (D.state desk.new) result }
    ensures sound { IfOk result AreStartRows }
{
    let bytes = bytes_of(alloc, desk, Table::Start)?;
    Ok(read_start(alloc, &bytes)?)
}

/// Reads and checks the agent table of an audit.
pub(crate) fn accept_agents<D: Desk>(alloc: Global, desk: &mut D) -> Result<AgentRows, Stop>
    ensures reads { (settings : Settings) (rows : TableRows) → kind_of settings.command ≡ Auditing
        → Accepts settings table.Start rows (with_agent_rows rows)
        (D.state desk.old) (D.state desk.new) result }
{
    let bytes = bytes_of(alloc, desk, Table::Start)?;
    Ok(read_agents(alloc, &bytes)?)
}

/// Reads and checks a table of link times over an accepted network.
pub(crate) fn accept_times<D: Desk>(
    alloc: Global,
    desk: &mut D,
    settings: &Settings,
    net: &Net,
) -> Result<TimeRows, Stop>
    requires settings { AreSettings settings.now }
    ensures reads { (rows : TableRows) → net_of rows ≡ net.now
        → Accepts settings.now table.Times rows (with_time_rows rows)
        (D.state desk.old) (D.state desk.new) result }
    ensures sound { IfOk result (AreRowsOf net.now settings.now.bucket settings.now.horizon) }
{
    let bytes = bytes_of(alloc, desk, Table::Times)?;
    Ok(read_times(alloc, net, &bytes, settings.bucket, settings.horizon)?)
}

/// The rows of a network's tables.
#[derive(Drop)]
pub(crate) struct NetworkTables {
    pub(crate) roads: Roads,
    pub(crate) turns: Option<TurnRows>,
}

/// Reads and checks the tables of a network, one after the other.
pub(crate) fn accept_network<D: Desk>(
    alloc: Global,
    desk: &mut D,
    settings: &Settings,
) -> Result<NetworkTables, Stop>
    requires settings { AreSettings settings.now }
    ensures reads { AcceptsAll settings.now network_tables no_rows rows_in_network
        (D.state desk.old) (D.state desk.new) result }
    ensures net { IfOk result (λ t. IsNet (joined t.roads.nodes t.roads.links t.turns)) }
{
    let roads = accept_roads(alloc, desk, settings)?;
    let turns = accept_turns(alloc, desk, settings, &roads)?;
    Ok(NetworkTables { roads, turns })
}

/// The rows of the tables that each loading has.
#[derive(Drop)]
pub(crate) struct Tables {
    pub(crate) network: NetworkTables,
    pub(crate) demand_cells: Vec<DemandCell>,
}

/// Reads and checks the tables that each loading has, one after the other.
pub(crate) fn accept_all<D: Desk>(
    alloc: Global,
    desk: &mut D,
    settings: &Settings,
) -> Result<Tables, Stop>
    requires settings { AreSettings settings.now }
    ensures reads { AcceptsAll settings.now all_tables no_rows rows_in_tables
        (D.state desk.old) (D.state desk.new) result }
    ensures net { IfOk result (λ t.
        IsNet (joined t.network.roads.nodes t.network.roads.links t.network.turns)) }
    ensures demand_cells { IfOk result (λ t.
        AreDemandCells settings.now.period t.demand_cells.items) }
{
    let network = accept_network(alloc, desk, settings)?;
    let demand_cells = accept_demand_cells(alloc, desk, settings)?;
    Ok(Tables {
        network,
        demand_cells,
    })
}
