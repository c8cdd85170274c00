// The words of a command with flat options, read by clap.
ghost use Rattle.std.specs.Prelude.{◌≡◌, ◌<◌, IfOk, MatchOption, None, drop, length, map};
ghost use Rattle.std.specs.Prelude.{string_bytes};
ghost use Rattle.std.specs.List.{list_any};
ghost use Rattle.clap.specs.Matches.{found_of};
ghost use Rattle.flat_options.specs.Asked.{takes_in};
ghost use Rattle.flat_options.specs.Reading.{Reads};
ghost use Rattle.flat_options.specs.Uses.{LeavesNumber, is_short as is_short_of, uses_of};

use crate::flat::{FlatOptions, clap_command};
use clap::ArgMatches;
use clap::error::ErrorKind;
use std::alloc::{AllocError, Global};

// Whether a word begins with one dash alone, or is two dashes alone. clap would read such words in
// its own way.
fn is_short(word: &str) -> bool
    ensures { result ≡ is_short_of word.now }
{
    match word.as_bytes() {
        [b'-', b'-', _, ..] => false,
        [b'-', ..] => true,
        _ => false,
    }
}

// Whether one of the words is such a word.
fn has_short(words: &[String]) -> bool
    ensures { result ≡ list_any is_short_of (map string_bytes words.now) }
{
    for word in words {
        if is_short(word.as_str()) {
            return true;
        }
    }
    false
}

/// What clap finds in the words behind the first one, or None where they aren't uses.
pub fn read<'a>(
    alloc: Global,
    program: &'a str,
    taken: FlatOptions,
    words: &'a [String],
) -> Result<Option<ArgMatches<'a>>, AllocError>
    requires words { 0 < length words.now }
    requires number { LeavesNumber (takes_in taken) }
    ensures { IfOk result (λ found. MatchOption found
        (uses_of (takes_in taken) (drop 1 (map string_bytes words.now)) ≡ None)
        (λ m. Reads (takes_in taken) (drop 1 (map string_bytes words.now)) (found_of m))) }
{
    if has_short(&words[1..]) {
        return Ok(None);
    }
    let command = clap_command(alloc, program, taken)?;
    match command.try_get_matches_from(words) {
        Ok(matches) => Ok(Some(matches)),
        Err(error) => match error.kind() {
            ErrorKind::OutOfMemory => Err(AllocError),
            _ => Ok(None),
        },
    }
}
