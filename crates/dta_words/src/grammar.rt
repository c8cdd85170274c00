// The settings that words ask for.
ghost use Rattle.std.specs.Prelude.{◌≡◌, ◌<◌, IfErr, IfOk, List, None, Some, drop, length};
ghost use Rattle.std.specs.Prelude.{option_and_then, true};
ghost use Rattle.clap.specs.Matches.{found_of};
ghost use Rattle.flat_options.specs.Reading.{Reads};
ghost use Rattle.flat_options.specs.Uses.{Text, uses_of};
ghost use Rattle.dta_words.specs.Grammar.{flags_in, settings_from, settings_of};
ghost use Rattle.dta_words.specs.Options.{takes_of};
ghost use Rattle.dta_words.specs.Ranges.{AreSettings};
ghost use Rattle.dta_words.specs.declared.refusal.WordsRefusal.TheVariants as refusal;

use crate::command::{Command, Settings, command_named, taken_by};
use crate::options::Flags;
use crate::refusal::WordsRefusal;
use crate::values::settings_by_values;
use crate::words::Words;
use clap::ArgMatches;
use flat_options::read;
use std::alloc::Global;

/// The program's name.
const PROGRAM: &str = "dta";

/// The flags that are given. A command has none that it doesn't take.
fn flags(named: Command, found: &ArgMatches) -> Flags
    ensures { (words : List Text) → (r : Reads (takes_of named) words (found_of found.now))
        → result ≡ flags_in r.uses }
{
    Flags {
        plain: found.get_flag("plain"),
        start: found.get_flag("start"),
    }
}

/// The settings of the words behind a command's name.
fn settings_behind(alloc: Global, named: Command, words: &Words) -> Result<Settings, WordsRefusal>
    requires { 0 < length words.now }
    ensures ok { IfOk result (λ s.
        option_and_then (settings_from named) (uses_of (takes_of named) (drop 1 words.now))
        ≡ Some s) }
    ensures ranges { IfOk result AreSettings }
    ensures usage { IfErr result (λ why. why ≡ refusal.Usage
        → option_and_then (settings_from named) (uses_of (takes_of named) (drop 1 words.now))
        ≡ None) }
{
    let Some(found) = read(alloc, PROGRAM, taken_by(named), words.as_slice())? else {
        return Err(WordsRefusal::Usage);
    };
    let flags = flags(named, &found);
    match settings_by_values(alloc, named, &found, flags)? {
        Some(settings) => Ok(settings),
        None => Err(WordsRefusal::Usage),
    }
}

/// The settings that the words after the program's name ask for. Usage comes exactly where the
/// grammar gives them none, and Memory where there was none.
pub fn settings(alloc: Global, words: &Words) -> Result<Settings, WordsRefusal>
    ensures ok { IfOk result (λ s. settings_of words.now ≡ Some s) }
    ensures usage { IfErr result (λ why. why ≡ refusal.Usage → settings_of words.now ≡ None) }

    // What holds of all settings.
    ensures ranges { IfOk result AreSettings }
{
    if words.len() == 0 {
        return Err(WordsRefusal::Usage);
    }
    match command_named(words.get(0)) {
        None => Err(WordsRefusal::Usage),
        Some(named) => settings_behind(alloc, named, words),
    }
}
