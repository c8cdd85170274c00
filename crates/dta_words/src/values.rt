// The values of options, as settings.
ghost use Rattle.std.specs.Prelude.{◌≡◌, IfOk, Some, codes};
ghost use Rattle.clap.specs.Matches.{first_value, found_of, one_text};
ghost use Rattle.dta_words.specs.Numbers.{number_given};
ghost use Rattle.dta_words.specs.Grammar.{costs_given, length_unit_of, link_given, period_within};
ghost use Rattle.dta_words.specs.Grammar.{queue_of, settings_by, speed_unit_of, units_by};
ghost use Rattle.dta_words.specs.Grammar.{settings_over as settings_over_of};
ghost use Rattle.dta_words.specs.Options.{command_of, takes_scales};
ghost use Rattle.dta_words.specs.Scales.{scales_given};
ghost use Rattle.dta_words.specs.Starts.{starts_given};

use crate::command::{Command, Settings, taken_by};
use crate::numbers::number_between;
use crate::options::{
    BUCKET, Bounds, DEFAULT_PERIOD, Flags, HORIZON, ITERATIONS, JAM, LEAST_SIDE, MOST_SIDE, STEP,
    WATCH, WAVE, WORKERS,
};
use crate::scales::{Scales, no_scales, scales_in};
use crate::starts::{first_step, starts_in};
use clap::ArgMatches;
use desk_io::Memory;
use dta_model::{Queue, Steps};
use fixed_units::{LengthUnit, SpeedUnit, Units, whole};
use flat_options::NUMBER;
use std::alloc::Global;
use trip_costs::Costs;

/// The number that an option gives, or what stands in its place.
fn number(found: &ArgMatches, name: &str, bounds: Bounds) -> Option<u32>
    ensures { result ≡ number_given bounds (first_value (found_of found.now) name.now) }
{
    match found.get_str(name) {
        None => Some(bounds.default),
        Some(text) => number_between(bounds.least, bounds.most, text),
    }
}

/// The unit of lengths.
fn length_unit(found: &ArgMatches) -> Option<LengthUnit>
    ensures { result ≡ length_unit_of (first_value (found_of found.now) (codes "length-unit")) }
{
    match found.get_str("length-unit") {
        None | Some("m") => Some(LengthUnit::Metre),
        Some("km") => Some(LengthUnit::Kilometre),
        Some("mi") => Some(LengthUnit::Mile),
        Some(_) => None,
    }
}

/// The unit of speeds.
fn speed_unit(found: &ArgMatches) -> Option<SpeedUnit>
    ensures { result ≡ speed_unit_of (first_value (found_of found.now) (codes "speed-unit")) }
{
    match found.get_str("speed-unit") {
        None | Some("kmh") => Some(SpeedUnit::Kmh),
        Some("mph") => Some(SpeedUnit::Mph),
        Some(_) => None,
    }
}

/// The kind of queues, where a backward wave has this speed.
fn queue(found: &ArgMatches, wave: u32) -> Option<Queue>
    ensures { result ≡ queue_of wave (first_value (found_of found.now) (codes "queue")) }
{
    match found.get_str("queue") {
        None | Some("point") => Some(Queue::Point),
        Some("spatial") => Some(Queue::Spatial),
        Some("newell") => Some(Queue::Newell { wave }),
        Some(_) => None,
    }
}

/// The costs by which routes are chosen and gaps are told.
fn costs(found: &ArgMatches) -> Option<Costs>
    ensures { result ≡ costs_given (first_value (found_of found.now) (codes "costs")) }
{
    match found.get_str("costs") {
        None | Some("links") => Some(Costs::Links),
        Some("trips") => Some(Costs::Trips),
        Some(_) => None,
    }
}

/// The command with its number, the side of the grid, which has to be given.
fn command(named: Command, found: &ArgMatches) -> Option<Command>
    ensures { result ≡ command_of named (first_value (found_of found.now) (codes "number")) }
{
    if taken_by(named).number {
        let side = number_between(LEAST_SIDE, MOST_SIDE, found.get_str(NUMBER)?)?;
        Some(Command::Demo(side))
    } else {
        Some(named)
    }
}

/// The units.
fn units(found: &ArgMatches) -> Option<Units>
    ensures { result ≡ units_by (first_value (found_of found.now)) }
{
    let delta = number(found, "step", STEP)?;
    let jam = number(found, "jam", JAM)?;
    let length = length_unit(found)?;
    let speed = speed_unit(found)?;
    Some(Units {
        delta,
        jam,
        length,
        speed,
    })
}

/// The steps in which vehicles are released.
fn period(found: &ArgMatches, horizon: u32) -> Option<u32>
    ensures { result
        ≡ number_given (period_within horizon) (first_value (found_of found.now) (codes "period")) }
{
    let bounds = Bounds {
        least: 1,
        most: horizon,
        default: DEFAULT_PERIOD.min(horizon),
    };
    number(found, "period", bounds)
}

/// The steps in which walks start.
fn starts(alloc: Global, found: &ArgMatches, horizon: u32) -> Result<Option<Steps>, Memory>
    ensures { IfOk result (λ starts.
        starts ≡ starts_given horizon (first_value (found_of found.now) (codes "at"))) }
{
    match found.get_str("at") {
        None => Ok(Some(first_step(alloc)?)),
        Some(text) => starts_in(alloc, text, horizon),
    }
}

/// The multiples of the demand, which have to be given where the command takes them.
fn scales(alloc: Global, named: Command, found: &ArgMatches) -> Result<Option<Scales>, Memory>
    ensures { IfOk result (λ scales. scales
        ≡ scales_given (takes_scales named) (first_value (found_of found.now) (codes "scales"))) }
{
    match found.get_str("scales") {
        Some(text) => scales_in(alloc, text),
        None if matches!(named, Command::Sweep) => Ok(None),
        None => Ok(Some(no_scales(alloc))),
    }
}

/// The identifier of a link, if one is given.
fn link(found: &ArgMatches) -> Option<Option<u64>>
    ensures { result ≡ link_given (first_value (found_of found.now) (codes "link")) }
{
    match found.get_str("link") {
        None => Some(None),
        Some(text) => Some(Some(whole(text.as_bytes()).ok()?)),
    }
}

/// The settings that the values come to over a horizon with these starts and multiples.
fn settings_over(
    horizon: u32,
    starts: Steps,
    scales: Scales,
    named: Command,
    found: &ArgMatches,
    flags: Flags,
) -> Option<Settings>
    ensures { result
        ≡ settings_over_of horizon starts scales named (first_value (found_of found.now)) flags }
{
    let command = command(named, found)?;
    let units = units(found)?;
    let period = period(found, horizon)?;
    let iterations = number(found, "iterations", ITERATIONS)?;
    let workers = number(found, "workers", WORKERS)?;
    let bucket = number(found, "bucket", BUCKET)?;
    let wave = number(found, "wave", WAVE)?;
    let queue = queue(found, wave)?;
    let costs = costs(found)?;
    let watch = number(found, "watch", WATCH)?;
    let link = link(found)?;
    Some(Settings {
        command,
        units,
        horizon,
        period,
        iterations,
        workers,
        bucket,
        queue,
        costs,
        watch,
        plain: flags.plain,
        start: flags.start,
        starts,
        link,
        scales,
    })
}

/// The settings that the values come to.
pub(crate) fn settings_by_values(
    alloc: Global,
    named: Command,
    found: &ArgMatches,
    flags: Flags,
) -> Result<Option<Settings>, Memory>
    ensures { IfOk result (λ settings.
        settings ≡ settings_by named (first_value (found_of found.now)) flags) }
{
    let Some(horizon) = number(found, "horizon", HORIZON) else {
        return Ok(None);
    };
    let Some(starts) = starts(alloc, found, horizon)? else {
        return Ok(None);
    };
    match scales(alloc, named, found)? {
        None => Ok(None),
        Some(scales) => Ok(settings_over(horizon, starts, scales, named, found, flags)),
    }
}
