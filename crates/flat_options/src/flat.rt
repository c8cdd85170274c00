// Flat lists of options, and the clap command of one.
ghost use Rattle.std.specs.Prelude.{◌≡◌, IfOk, map};
ghost use Rattle.clap.specs.Walk.{texts};
ghost use Rattle.clap.specs.Simple.{app_of, with_rule};
ghost use Rattle.flat_options.specs.Asked.{asked, asked_app, asked_numbers, bare_app, names_in};
ghost use Rattle.flat_options.specs.Asked.{takes_in, with_rules};

use clap::{Arg, ArgAction, Command};
use std::alloc::{AllocError, Global};

/// The name under which clap keeps the number that stands alone.
pub const NUMBER: &str = "number";

/// What a command takes. Names stand in groups, which commands can share.
#[derive(Clone, Copy)]
pub struct FlatOptions {
    /// The names of the options with a value.
    pub options: &'static [&'static [&'static str]],
    /// The names of the flags.
    pub flags: &'static [&'static [&'static str]],
    /// Whether it takes a number that stands alone.
    pub number: bool,
}

// The command with an argument of a name behind what it has.
fn with_name<'a>(
    alloc: Global,
    command: Command<'a>,
    action: ArgAction,
    name: &'a str,
) -> Result<Command<'a>, AllocError>
    ensures { IfOk result (λ r. app_of r
        ≡ with_rule (app_of command.entry) (asked action name.entry.now)) }
{
    let argument = Arg::new(alloc, name).long(name).action(action);
    command.arg(argument)
}

// The command with an argument of each name behind what it has.
fn with_names<'a>(
    alloc: Global,
    command: Command<'a>,
    action: ArgAction,
    names: &[&'a str],
) -> Result<Command<'a>, AllocError>
    ensures { IfOk result (λ r. app_of r
        ≡ with_rules (map (asked action) (texts names.entry.now)) (app_of command.entry)) }
{
    let mut command = command;
    for name in names {
        command = with_name(alloc, command, action, *name)?;
    }
    Ok(command)
}

// The command with an argument of each name of the groups behind what it has.
fn with_groups<'a>(
    alloc: Global,
    command: Command<'a>,
    action: ArgAction,
    groups: &[&[&'a str]],
) -> Result<Command<'a>, AllocError>
    ensures { IfOk result (λ r. app_of r
        ≡ with_rules (map (asked action) (names_in groups.entry.now)) (app_of command.entry)) }
{
    let mut command = command;
    for names in groups {
        command = with_names(alloc, command, action, *names)?;
    }
    Ok(command)
}

// The command with the number that stands alone behind what it has, where there is to be one.
fn with_number<'a>(
    alloc: Global,
    command: Command<'a>,
    takes: bool,
) -> Result<Command<'a>, AllocError>
    ensures { IfOk result (λ r.
        app_of r ≡ with_rules (asked_numbers takes) (app_of command.entry)) }
{
    if !takes {
        return Ok(command);
    }
    let number = Arg::new(alloc, NUMBER).action(ArgAction::Set);
    command.arg(number)
}

// A command without arguments, and without clap's own flags for help and version.
fn bare_command<'a>(alloc: Global, program: &'a str) -> Command<'a>
    ensures { app_of result ≡ bare_app program.now }
{
    Command::new(alloc, program)
        .disable_help_flag(true)
        .disable_version_flag(true)
}

// The clap command of a flat list of options.
pub(crate) fn clap_command<'a>(
    alloc: Global,
    program: &'a str,
    taken: FlatOptions,
) -> Result<Command<'a>, AllocError>
    ensures { IfOk result (λ r. app_of r ≡ asked_app program.now (takes_in taken)) }
{
    let bare = bare_command(alloc, program);
    let with_values = with_groups(alloc, bare, ArgAction::Set, taken.options)?;
    let with_all = with_groups(alloc, with_values, ArgAction::SetTrue, taken.flags)?;
    with_number(alloc, with_all, taken.number)
}
