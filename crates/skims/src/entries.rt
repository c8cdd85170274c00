// The entries of a skim, in order.
ghost use Rattle.std.specs.Prelude.{◌≡◌, ◌<◌, length, slice_index, IfOk, OnOk};
ghost use Rattle.net_core.specs.Network.{zones as zones_of};
ghost use Rattle.dta_model.specs.LinkTimes.{time_at};
ghost use Rattle.skims.specs.Growing.{Adds};
ghost use Rattle.skims.specs.Skim.{IsEntryOf};
ghost use Rattle.skims.specs.Questions.{questions_between, questions_from};
ghost use Rattle.skims.specs.Skim.{IsSkim};

use crate::leasts::LeastTimes;
use crate::skim_entry::SkimEntry;
use net_core::Memory;
use std::alloc::Global;

// Adds the entries from a zone to another, one for each start, and none where the two are one. The
// zones are told by their places.
fn add_pair(
    entries: &mut Vec<SkimEntry>,
    leasts: &LeastTimes,
    zones: &[u64],
    starts: &[u32],
    origin: usize,
    destination: usize,
) -> Result<(), Memory>
    requires zones { zones.now ≡ zones_of leasts.now.net.nodes }
    requires starts { starts.now ≡ leasts.now.starts }
    requires origin { origin < length zones.now }
    requires destination { destination < length zones.now }
    ensures { OnOk result (Adds (IsEntryOf (time_at leasts.now.times) leasts.now.net)
        (questions_between starts.now (slice_index zones.now origin)
        (slice_index zones.now destination)) entries.old.items entries.new.items) }
{
    if zones[origin] == zones[destination] {
        return Ok(());
    }
    for start in 0..starts.len() {
        entries.push(SkimEntry {
            origin: zones[origin],
            destination: zones[destination],
            start: starts[start],
            least: leasts.get(origin, destination, start),
        })?;
    }
    Ok(())
}

// Adds the entries from a zone to each other one.
fn add_origin(
    entries: &mut Vec<SkimEntry>,
    leasts: &LeastTimes,
    zones: &[u64],
    starts: &[u32],
    origin: usize,
) -> Result<(), Memory>
    requires zones { zones.now ≡ zones_of leasts.now.net.nodes }
    requires starts { starts.now ≡ leasts.now.starts }
    requires origin { origin < length zones.now }
    ensures { OnOk result (Adds (IsEntryOf (time_at leasts.now.times) leasts.now.net)
        (questions_from zones.now starts.now (slice_index zones.now origin)) entries.old.items
        entries.new.items) }
{
    for destination in 0..zones.len() {
        add_pair(entries, leasts, zones, starts, origin, destination)?;
    }
    Ok(())
}

// How many entries there are.
fn entry_count(zones: usize, starts: usize) -> usize {
    zones
        .saturating_mul(zones.saturating_sub(1))
        .saturating_mul(starts)
}

/// The entries of a skim, by the least times between all zones and the zones' identifiers.
pub(crate) fn entries_of(
    alloc: Global,
    leasts: &LeastTimes,
    zones: &[u64],
    starts: &[u32],
) -> Result<Vec<SkimEntry>, Memory>
    requires zones { zones.now ≡ zones_of leasts.now.net.nodes }
    requires starts { starts.now ≡ leasts.now.starts }
    ensures { IfOk result (λ entries. IsSkim (time_at leasts.now.times) leasts.now.net starts.now
        entries.items) }
{
    let mut entries = Vec::with_capacity(alloc, entry_count(zones.len(), starts.len()))?;
    for origin in 0..zones.len() {
        add_origin(&mut entries, leasts, zones, starts, origin)?;
    }
    Ok(entries)
}
