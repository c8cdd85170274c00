// Trips of a demand table, made row by row, then put in order and numbered.
ghost use Rattle.std.specs.Prelude.{◌≡◌, ℕ, ◌<◌, ◌≤◌, ◌↔◌, ◌++◌, All, map, length, IfOk, OnOk, Err};
ghost use Rattle.std.specs.List.Sorted.{IsNonDecreasingBy};
ghost use Rattle.fixed_units.specs.declared.quantity.TheConstants.{MOST_THOUSANDTHS};
ghost use Rattle.net_core.specs.Network.{numbers_below};
ghost use Rattle.dta_model.specs.Release.{HaveWindows, departure, released, trips_of};
ghost use Rattle.dta_model.specs.Release.{vehicles_before};
ghost use Rattle.dta_model.specs.Sound.{AreTrips};
ghost use Rattle.dta_model.specs.declared.trip.TheConstants.{MOST_TRIPS};
ghost use Rattle.vehicle_release.specs.Limits.{IsWithin, IsFirstAbove};
ghost use Rattle.vehicle_release.specs.Unnumbered.{by_departure, renumbered, trip_at, unnumbered};
ghost use Rattle.vehicle_release.specs.declared.fault.ReleaseFault.TheVariants as fault;

use crate::fault::ReleaseFault;
use crate::sums::{all_vehicles, with_row};
use dta_model::{DemandCell, Trip, VOLUME_OF_A_VEHICLE};
use std::alloc::{AllocError, Global};

/// The trips of demand rows, each of which departs over its window. They are numbered from 0 by
/// departure, then row, then the order within the row. A volume is in thousandths of a vehicle.
/// Rows are refused before memory is taken.
pub fn release(alloc: Global, cells: &[DemandCell]) -> Result<Vec<Trip>, ReleaseFault>
    requires windows { All (λ cell. cell.from < cell.to) cells.now }
    requires volumes { All (λ cell. cell.volume ≤ MOST_THOUSANDTHS) cells.now }
    ensures trips { IfOk result (λ trips. trips.items ≡ trips_of cells.now) }
    ensures sound { IfOk result (λ trips. AreTrips trips.items) }
    ensures rising { IfOk result (λ trips. IsNonDecreasingBy (λ trip. trip.departure) trips.items) }

    // Trips depart before any steps end within which all windows end.
    ensures early { (steps : ℕ) → HaveWindows steps cells.now
        → IfOk result (λ trips. All (λ trip. trip.departure < steps) trips.items) }

    // Too many vehicles are told exactly at the first row with which they are too many. The trips
    // come, or memory is wanting, only where there is no such row.
    ensures too_many { (line total : ℕ) →
        (result ≡ Err (fault.TooMany line total)) ↔ IsFirstAbove cells.now line total }
    ensures ok_within { OnOk result (IsWithin cells.now) }
    ensures memory_within { result ≡ Err fault.Memory → IsWithin cells.now }
{
    let total = all_vehicles(cells)?;
    Ok(all_trips(alloc, cells, total)?)
}

/// The trips of rows that make so many vehicles.
fn all_trips(alloc: Global, cells: &[DemandCell], total: usize) -> Result<Vec<Trip>, AllocError>
    requires windows { All (λ cell. cell.from < cell.to) cells.now }
    requires total { total ≡ vehicles_before cells.now (length cells.now) }
    requires few { total ≤ MOST_TRIPS }
    ensures { IfOk result (λ trips. trips.items ≡ trips_of cells.now) }
{
    let mut trips = trips_by_row(alloc, cells, total)?;
    put_in_order(&mut trips)?;
    number_in_order(&mut trips);
    Ok(trips)
}

/// The trips of rows that make so many vehicles, row by row and not yet numbered.
#[tactic(auto, using(crate::proofs::MadeFacts::making))]
fn trips_by_row(alloc: Global, cells: &[DemandCell], total: usize) -> Result<Vec<Trip>, AllocError>
    requires windows { All (λ cell. cell.from < cell.to) cells.now }
    requires total { total ≡ vehicles_before cells.now (length cells.now) }
    requires few { total ≤ MOST_TRIPS }
    ensures { IfOk result (λ trips.
        trips.items ≡ map (unnumbered cells.now) (released cells.now)) }
{
    let mut trips = Vec::with_capacity(alloc, total)?;
    let mut volume: u64 = 0;
    for cell in cells {
        let before = volume / VOLUME_OF_A_VEHICLE;
        volume = with_row(volume, cell);
        push_row(&mut trips, cell, volume / VOLUME_OF_A_VEHICLE - before)?;
    }
    Ok(trips)
}

/// Adds the trips of a row that has so many vehicles.
#[tactic(auto, using(crate::proofs::MadeFacts::row_more))]
fn push_row(trips: &mut Vec<Trip>, cell: &DemandCell, vehicles: u64) -> Result<(), AllocError>
    requires window { cell.now.from < cell.now.to }
    requires few { vehicles ≤ MOST_TRIPS }
    ensures { OnOk result (trips.new.items
        ≡ trips.old.items ++ map (trip_at vehicles cell.now) (numbers_below vehicles)) }
{
    for place in 0..vehicles {
        trips.push(Trip {
            number: 0,
            origin: cell.origin,
            destination: cell.destination,
            departure: departure_of(cell, vehicles, place),
        })?;
    }
    Ok(())
}

/// The step in which a vehicle of a row departs: the middle of its share of the window.
#[tactic(auto, unfolding(dta_model::specs::Release::departure))]
fn departure_of(cell: &DemandCell, vehicles: u64, place: u64) -> u32
    requires window { cell.now.from < cell.now.to }
    requires few { vehicles ≤ MOST_TRIPS }
    requires inside { place < vehicles }
    ensures { result ≡ departure cell.now.from cell.now.to vehicles place }
{
    let steps = u64::from(cell.to - cell.from);
    cell.from + ((2 * place + 1) * steps / (2 * vehicles)) as u32
}

/// Puts trips in the order of departure, those of one step as they stand.
fn put_in_order(trips: &mut Vec<Trip>) -> Result<(), AllocError>
    ensures { (steps : ℕ) → All (λ trip. trip.departure < steps) trips.old.items
        → OnOk result (trips.new.items ≡ by_departure steps trips.old.items) }
{
    trips.sort_by_key(|trip| trip.departure)?;
    Ok(())
}

/// Numbers trips from 0 in the order in which they stand.
#[tactic(auto, using(crate::proofs::NumbersFacts::numbering))]
fn number_in_order(trips: &mut [Trip])
    requires { length trips.old ≤ MOST_TRIPS }
    ensures { trips.new ≡ renumbered 0 trips.old }
{
    for place in 0..trips.len() {
        trips[place].number = place as u32;
    }
}
