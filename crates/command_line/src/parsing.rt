//! The words of a command, assigned by `clap`.
ghost use Rattle.std.specs.Prelude.{◌≡◌, IfOk, true, map, option_map, string_bytes};
ghost use Rattle.clap.specs.Walk.{first_of, rows_of};
ghost use Rattle.clap.specs.Matches.{found_of};
ghost use Rattle.clap.specs.Simple.{app_of, is_simple};
ghost use Rattle.clap.specs.Faults.{is_simple_and_free};
ghost use Rattle.command_line.specs.Table as spec;
ghost use Rattle.command_line.specs.Lines.{rows};

use crate::table::{ArgKind, Syntax};
use clap::error::ErrorKind;
use clap::{Arg, ArgMatches, Command};
use std::alloc::{AllocError, Global};

/// What `clap` finds in the words of a command, of which the first is the command's own, and none exactly where it
/// refuses them. The one error is want of memory.
pub fn matches_of<'a>(
    alloc: Global,
    line: Syntax,
    words: &'a [String],
) -> Result<Option<ArgMatches<'a>>, AllocError>
    requires { is_simple_and_free (spec.app_of (spec.syntax_view line)) ≡ true }
    ensures { IfOk result (λ found. option_map (λ m. rows_of (found_of m)) found
        ≡ rows (spec.app_of (spec.syntax_view line)) (map string_bytes words.entry.now)) }
{
    let command = clap_command(alloc, line)?;
    match command.try_get_matches_from(words) {
        Ok(matches) => Ok(Some(matches)),
        Err(error) => match error.kind() {
            ErrorKind::OutOfMemory => Err(AllocError),
            _ => Ok(None),
        },
    }
}

/// The first value that was found under this name.
pub fn value_of<'a>(matches: &ArgMatches<'a>, name: &str) -> Option<&'a str>
    ensures { option_map (λ value. value.now) result ≡ first_of name.now (rows_of (found_of matches.now)) }
{
    matches.get_str(name)
}

// The command of `clap` that the line makes.
fn clap_command<'a>(alloc: Global, line: Syntax) -> Result<Command<'a>, AllocError>
    ensures { IfOk result (λ command. app_of command ≡ spec.app_of (spec.syntax_view line)) }
{
    let command = Command::new(alloc, line.name);
    let command = with_args(alloc, command, line.words, ArgKind::Word)?;
    let command = with_args(alloc, command, line.optional, ArgKind::OptionalWord)?;
    with_args(alloc, command, line.options, ArgKind::Named)
}

fn with_args<'a>(
    alloc: Global,
    command: Command<'a>,
    names: &[&'a str],
    kind: ArgKind,
) -> Result<Command<'a>, AllocError>
    ensures { IfOk result (λ r. app_of r ≡ spec.with_args kind (app_of command.entry)
        (map (λ name. name.now) names.now)) }
{
    let mut command = command;
    for name in names {
        command = with_arg(alloc, command, name, kind)?;
    }
    Ok(command)
}

fn with_arg<'a>(
    alloc: Global,
    command: Command<'a>,
    name: &'a str,
    kind: ArgKind,
) -> Result<Command<'a>, AllocError>
    ensures { IfOk result (λ r. app_of r ≡ spec.with_arg kind (app_of command.entry) name.entry.now) }
{
    match kind {
        ArgKind::Word => command.arg(Arg::new(alloc, name).required(true)),
        ArgKind::OptionalWord => command.arg(Arg::new(alloc, name)),
        ArgKind::Named => command.arg(Arg::new(alloc, name).long(name)),
    }
}
