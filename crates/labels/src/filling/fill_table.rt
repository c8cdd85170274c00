// Tables of what is left, in the narrowest form that serves.
ghost use Rattle.std.specs.Prelude.{◌≡◌, ◌<◌, ◌≤◌, length, map, slice_index, All, IfOk};
ghost use Rattle.labels.specs.Filling.Firsts.{AreLeftToFirst};
ghost use Rattle.labels.specs.Filling.Labels.{far};
ghost use Rattle.labels.specs.Filling.Tables.{left_alone};
ghost use Rattle.labels.specs.Filling.Tails.{AreTails, FitsBelow};
ghost use Rattle.labels.specs.Filling.Timed.{horizon_of, states_of, time_in};
ghost use Rattle.labels.specs.Reading.Serves.{AreAllLeft, AreLeft};
ghost use Rattle.labels.specs.ToZone.{zone_numbers};
ghost use Rattle.labels.specs.declared.states.zone_numbers.TheConstants.{NO_ZONE};
ghost use Rattle.labels.specs.declared.reading.group_labels.TheConstants.{MOST_GROUP};
ghost use Rattle.trip_costs.specs.WalkCosts.{AreTimed, table_in};

use crate::filling::eight::Eight;
use crate::filling::four::Four;
use crate::filling::label_table::LabelTable;
use crate::filling::no_walk::{NARROW_FAR, SHORT_FAR};
use crate::filling::one::One;
use crate::filling::slot_rows::slot_rows;
use crate::filling::spare::Spare;
use crate::filling::table_forms::{SlotTable, WideTable};
use crate::filling::tails::{reach_of, tails_of};
use crate::filling::timed_router::TimedRouter;
use crate::reading::group_labels::MOST_GROUP;
use net_core::{Memory, ZoneNo};
use std::alloc::Global;

// The most zones side by side in 32 bits.
const MOST_NARROW: usize = 4;

/// What is left to the first of some zones, and to how many of them.
#[derive(Drop)]
pub(crate) struct Filled {
    pub(crate) table: LabelTable,
    pub(crate) count: usize,
}

// What is left to the zone at a place, in 64 bits.
fn one_table(
    alloc: Global,
    timed: &TimedRouter,
    zones: &[ZoneNo],
    tails: &[Vec<u64>],
    most: u64,
    place: usize,
) -> Result<SlotTable<One>, Memory>
    requires place { place < length zones.now }
    requires zones { All (λ z. z.0 < NO_ZONE) zones.now }
    requires tails { AreTails (table_in timed.now.costs).free timed.now.router.now most
        (map (λ tail. tail.items) tails.now) (zone_numbers zones.now) }
    requires fits { FitsBelow (time_in timed.now) (horizon_of timed.now) timed.now.router.now most
        far }
    ensures states { IfOk result (λ table. table.states ≡ states_of timed.now) }
    ensures left { IfOk result (λ table. AreLeft (time_in timed.now) (left_alone table)
        timed.now.router.now (slice_index (zone_numbers zones.now) place)) }
{
    let next = place + 1;
    let alone = &zones[place..next];
    let rows = &tails[place..next];
    let table = slot_rows::<One>(alloc, timed, alone, rows, most, Vec::new(alloc))?;
    Ok(table)
}

// What is left to each of some zones, one after another in 64 bits.
fn wide_table(
    alloc: Global,
    timed: &TimedRouter,
    zones: &[ZoneNo],
    tails: &[Vec<u64>],
    most: u64,
) -> Result<LabelTable, Memory>
    requires zones { All (λ z. z.0 < NO_ZONE) zones.now }
    requires tails { AreTails (table_in timed.now.costs).free timed.now.router.now most
        (map (λ tail. tail.items) tails.now) (zone_numbers zones.now) }
    requires fits { FitsBelow (time_in timed.now) (horizon_of timed.now) timed.now.router.now most
        far }
    ensures { IfOk result (λ table. AreAllLeft (time_in timed.now) timed.now.router.now table
        (zone_numbers zones.now)) }
{
    let mut tables = Vec::new(alloc);
    for place in 0..zones.len() {
        tables.push(one_table(alloc, timed, zones, tails, most, place)?)?;
    }
    Ok(LabelTable::Wide(WideTable {
        states: timed.router.state_count(),
        zones: tables,
    }))
}

// The most zones whose labels may stand in one table, where the horizon and the longest ways on
// take so many steps: as many as there are slots of 16 bits where these may serve, else of 32; and
// as many at least as are asked for.
fn most_zones(steps: u64, least: usize) -> usize
    requires { least ≤ MOST_GROUP }
    ensures enough { least ≤ result }
    ensures few { result ≤ MOST_GROUP }
{
    if steps < SHORT_FAR {
        MOST_GROUP
    } else {
        MOST_NARROW.max(least)
    }
}

/// What is left to the first of some zones over the costs, to so many of them at
/// least, where it serves in the memory of labels that are read no more.
pub(crate) fn table_of(
    alloc: Global,
    timed: &TimedRouter,
    zones: &[ZoneNo],
    least: usize,
    spare: Spare,
) -> Result<Filled, Memory>
    requires zones { All (λ z. z.0 < NO_ZONE) zones.now }
    requires least { (least ≤ length zones.now) × (least ≤ MOST_GROUP) }
    ensures left { IfOk result (AreLeftToFirst (time_in timed.now) timed.now.router.now zones.now
        least) }
    ensures timed { AreTimed timed.now.costs }
{
    let _timed = timed.costs.horizon();
    let Spare { short, narrow } = spare;
    let reach = reach_of(timed);
    let count = zones.len().min(most_zones(reach, least));
    let first = &zones[..count];
    let tails = tails_of(alloc, timed, first)?;
    let reach = reach + tails.most;
    if reach < SHORT_FAR {
        let rows = tails.zones.as_slice();
        let table = slot_rows::<Eight>(alloc, timed, first, rows, tails.most, short)?;
        return Ok(Filled {
            table: LabelTable::Short(table),
            count,
        });
    }
    let count = count.min(MOST_NARROW).max(least);
    let first = &zones[..count];
    let rows = &tails.zones[..count];
    if count <= MOST_NARROW && reach < NARROW_FAR as u64 {
        let table = slot_rows::<Four>(alloc, timed, first, rows, tails.most, narrow)?;
        return Ok(Filled {
            table: LabelTable::Narrow(table),
            count,
        });
    }
    drop(narrow);
    let table = wide_table(alloc, timed, first, rows, tails.most)?;
    Ok(Filled { table, count })
}
