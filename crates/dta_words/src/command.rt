// The commands, each with its word and what it takes, and the settings of a run.
ghost use Rattle.std.specs.Prelude.{◌≡◌};
ghost use Rattle.flat_options.specs.Asked.{takes_in};
ghost use Rattle.dta_words.specs.Options.{takes_of, word_of};

use crate::options::LEAST_SIDE;
use crate::scales::Scales;
use dta_model::{Queue, Steps};
use fixed_units::Units;
use flat_options::FlatOptions;
use trip_costs::Costs;

/// What the program is asked to do.
#[derive(Clone, Copy, Debug, PartialEq, Eq)]
pub enum Command {
    /// Free-flow steps and storage of each link.
    Freeflow,
    /// Assignment over the tables of a folder.
    Assign,
    /// Assignment over a grid with so many nodes on a side, from 2 to 60.
    Demo(u32),
    /// Least times between all zones over a table of link times.
    Skim,
    /// Counts of turns, and of the vehicles through a link.
    Counts,
    /// The assignment for several multiples of the demand.
    Sweep,
    /// A check of an agent table and a table of link times.
    Audit,
}

/// The settings of a run. A field that the command has no option for holds its default.
#[derive(Drop)]
pub struct Settings {
    pub command: Command,
    pub units: Units,
    /// The steps of a loading, from 1 to 86,400.
    pub horizon: u32,
    /// The steps in which vehicles are released, from 1 to the horizon.
    pub period: u32,
    /// From 1 to 1,000.
    pub iterations: u32,
    /// From 1 to 16.
    pub workers: u32,
    /// The steps of a bucket of link times, from 1 to 86,400.
    pub bucket: u32,
    pub queue: Queue,
    /// By what routes are chosen and gaps are told. Links where the command has no such option.
    pub costs: Costs,
    /// The steps between two watch lines, up to 86,400, and 0 for none.
    pub watch: u32,
    /// Whether the plain loader loads.
    pub plain: bool,
    /// Whether the first routes come from an earlier agent table.
    pub start: bool,
    /// The steps in which walks start, in the order given: 1 to 64, each below the horizon. Step 0
    /// alone is the default.
    pub starts: Steps,
    /// The identifier of the link whose vehicles are counted, if one is given.
    pub link: Option<u64>,
    /// The multiples of the demand of a sweep, in thousandths, in the order given: 1 to 16, each
    /// from 1 to 10,000. Other commands have none.
    pub scales: Scales,
}

/// What every command takes.
const EVERYWHERE: &[&str] = &["step", "jam"];

/// The units of tables, which a demonstration has none of.
const UNITS: &[&str] = &["length-unit", "speed-unit"];

/// The steps of a loading, and of its link times.
const TIMES: &[&str] = &["horizon", "bucket"];

/// What is loaded, and by which queue.
const LOADING: &[&str] = &["period", "queue", "wave"];

/// How often is loaded, by how many workers, and by which costs routes are chosen.
const ITERATED: &[&str] = &["iterations", "workers", "costs"];

const WATCHED: &[&str] = &["watch"];

const PLAIN: &[&str] = &["plain"];

/// The command that the first word names. A side that is still to be read stands at its least.
pub(crate) fn command_named(text: &str) -> Option<Command>
    ensures { result ≡ word_of text.now }
{
    match text {
        "freeflow" => Some(Command::Freeflow),
        "assign" => Some(Command::Assign),
        "demo" => Some(Command::Demo(LEAST_SIDE)),
        "skim" => Some(Command::Skim),
        "counts" => Some(Command::Counts),
        "sweep" => Some(Command::Sweep),
        "audit" => Some(Command::Audit),
        _ => None,
    }
}

// What each command over tables takes.
const TABLES: FlatOptions = FlatOptions {
    options: &[EVERYWHERE, UNITS],
    flags: &[],
    number: false,
};

/// What a command takes after its own word.
pub(crate) fn taken_by(named: Command) -> FlatOptions
    ensures { takes_in result ≡ takes_of named }
{
    match named {
        Command::Freeflow => TABLES,
        Command::Assign => FlatOptions {
            options: &[EVERYWHERE, UNITS, TIMES, LOADING, ITERATED, WATCHED],
            flags: &[PLAIN, &["start"]],
            ..TABLES
        },
        Command::Demo(_) => FlatOptions {
            options: &[EVERYWHERE, TIMES, LOADING, ITERATED, WATCHED],
            flags: &[PLAIN],
            number: true,
        },
        Command::Skim => FlatOptions {
            options: &[EVERYWHERE, UNITS, TIMES, &["at"]],
            ..TABLES
        },
        Command::Counts => FlatOptions {
            options: &[EVERYWHERE, UNITS, TIMES, LOADING, ITERATED, &["link"]],
            flags: &[PLAIN],
            ..TABLES
        },
        Command::Sweep => FlatOptions {
            options: &[EVERYWHERE, UNITS, TIMES, LOADING, ITERATED, &["scales"]],
            ..TABLES
        },
        Command::Audit => FlatOptions {
            options: &[EVERYWHERE, UNITS, TIMES, LOADING],
            ..TABLES
        },
    }
}
