//! The commands, and which one the words of a command line are.
ghost use Rattle.std.specs.Prelude.{◌≡◌, IfOk, IfSome, None, Some, map, string_bytes};
ghost use Rattle.clap.specs.Walk.{rows_of};
ghost use Rattle.clap.specs.Matches.{found_of};
ghost use Rattle.command_line.specs.Lines as spec;
ghost use Rattle.command_line.specs.Lanes as lanes;
ghost use Rattle.command_line.specs.Lanes.{AreApart, IsWithin};
ghost use Rattle.command_line.specs.declared.table.CommandName.TheVariants as names;

use crate::inputs::inputs_or_none;
use crate::lanes::lanes_in;
use crate::parsing::{matches_of, value_of};
use crate::table::{CommandName, command_named, syntax_of};
use base::{Items, Text};
use clap::ArgMatches;
use std::alloc::{AllocError, Global};

/// Words of 64 bits.
pub type Words = Items<u64>;

/// A command with its words. A `program` and an `asm` are names of files.
#[derive(Drop)]
pub enum Command {
    /// `search PROGRAM ASM`: two names that differ, and ASM is not `-`.
    Search {
        program: Text,
        asm: Text,
    },
    /// `search PROGRAM ASM JOURNAL --seeds LIST --workers N --turns N`: three names of which no two are the same, and
    /// neither ASM nor JOURNAL is `-`; the seed of each lane, how many workers, and how many turns each lane has.
    SearchLanes {
        program: Text,
        asm: Text,
        journal: Text,
        seeds: Words,
        workers: u8,
        turns: u32,
    },
    /// `eval PROGRAM [--in LIST]`: the program, and the input words, none where there is no list.
    Eval {
        program: Text,
        inputs: Words,
    },
    /// `emulate PROGRAM ASM [--in LIST]`: the program, its assembly, and the input words.
    Emulate {
        program: Text,
        asm: Text,
        inputs: Words,
    },
    /// `check PROGRAM ASM`: the program, and the assembly that is checked against it.
    Check {
        program: Text,
        asm: Text,
    },
    /// `show ASM`.
    Show {
        asm: Text,
    },
    /// `replay PROGRAM JOURNAL ASM`: the program, the journal of a search, and the assembly that it wrote.
    Replay {
        program: Text,
        journal: Text,
        asm: Text,
    },
}

/// The command of a command line without the program's own name, and none exactly where the words are no command.
/// The one error is want of memory.
///
/// The first word names the command. `clap` assigns the words after it: options stand anywhere as `--in LIST` or
/// `--in=LIST`, once each; after `--` every word is a name; a word that begins with `-` and is longer is an option;
/// `--help` is refused. A LIST has words with commas between them: decimal digits, or `0x` and hexadecimal digits,
/// each below 2^64.
///
/// `search` takes the word JOURNAL and its three options together, or none of them. The LIST of its seeds has 1 to 64
/// numbers with commas between them; there are 1 to 64 workers, and at most 65,536 turns; seeds times turns is at most
/// 1,048,576. Each of these numbers has 1 to 20 decimal digits and is below 2^64.
pub fn command_of(alloc: Global, words: &[String]) -> Result<Option<Command>, AllocError>
    ensures command { IfOk result (λ found. found ≡ spec.command_of (map string_bytes words.now)) }

    // What holds of each search by lanes.
    ensures names { IfOk result (λ found. IfSome found AreApart) }
    ensures limits { IfOk result (λ found. IfSome found IsWithin) }
{
    let Some(first) = words.first() else {
        return Ok(None);
    };
    let Some(name) = command_named(first.as_str()) else {
        return Ok(None);
    };
    match matches_of(alloc, syntax_of(name), words)? {
        Some(matches) => made_of(alloc, name, &matches),
        None => Ok(None),
    }
}

fn made_of(
    alloc: Global,
    name: CommandName,
    matches: &ArgMatches<'_>,
) -> Result<Option<Command>, AllocError>
    ensures command { IfOk result (λ made. made ≡ spec.made_of name (rows_of (found_of matches.now))) }
    ensures names { IfOk result (λ made. IfSome made AreApart) }
    ensures limits { IfOk result (λ made. IfSome made IsWithin) }
{
    match name {
        CommandName::Search => search_of(alloc, matches),
        CommandName::Eval => eval_of(alloc, matches),
        CommandName::Emulate => emulate_of(alloc, matches),
        CommandName::Check => check_of(alloc, matches),
        CommandName::Show => show_of(alloc, matches),
        CommandName::Replay => replay_of(alloc, matches),
    }
}

fn search_of(alloc: Global, matches: &ArgMatches<'_>) -> Result<Option<Command>, AllocError>
    ensures command { IfOk result (λ made. made ≡ spec.made_of names.Search (rows_of (found_of matches.now))) }
    ensures names { IfOk result (λ made. IfSome made AreApart) }
    ensures limits { IfOk result (λ made. IfSome made IsWithin) }
{
    let Some(program) = value_of(matches, "PROGRAM") else {
        return Ok(None);
    };
    let Some(asm) = value_of(matches, "ASM") else {
        return Ok(None);
    };
    match value_of(matches, "JOURNAL") {
        Some(journal) => search_lanes_of(alloc, program, asm, journal, matches),
        None => search_opening_of(alloc, program, asm, matches),
    }
}

// The search where the word JOURNAL is not there.
fn search_opening_of(
    alloc: Global,
    program: &str,
    asm: &str,
    matches: &ArgMatches<'_>,
) -> Result<Option<Command>, AllocError>
    ensures command { IfOk result (λ made. made ≡ spec.search_made program.now asm.now None
        (rows_of (found_of matches.now))) }
    ensures names { IfOk result (λ made. IfSome made AreApart) }
    ensures limits { IfOk result (λ made. IfSome made IsWithin) }
{
    if !has_no_options(matches) || !are_file_names(program, asm) {
        return Ok(None);
    }
    let program = Text::from_str(alloc, program)?;
    let asm = Text::from_str(alloc, asm)?;
    Ok(Some(Command::Search { program, asm }))
}

fn has_no_options(matches: &ArgMatches<'_>) -> bool
    ensures { result ≡ spec.has_no_options (rows_of (found_of matches.now)) }
{
    value_of(matches, "seeds").is_none()
        && value_of(matches, "workers").is_none()
        && value_of(matches, "turns").is_none()
}

// The search where the word JOURNAL is there.
fn search_lanes_of(
    alloc: Global,
    program: &str,
    asm: &str,
    journal: &str,
    matches: &ArgMatches<'_>,
) -> Result<Option<Command>, AllocError>
    ensures command { IfOk result (λ made. made ≡ spec.search_made program.now asm.now (Some journal.now)
        (rows_of (found_of matches.now))) }
    ensures names { IfOk result (λ made. IfSome made AreApart) }
    ensures limits { IfOk result (λ made. IfSome made IsWithin) }
{
    let Some(lanes) = lanes_in(alloc, matches)? else {
        return Ok(None);
    };
    if !are_lane_names(program, asm, journal) {
        return Ok(None);
    }
    let program = Text::from_str(alloc, program)?;
    let asm = Text::from_str(alloc, asm)?;
    let journal = Text::from_str(alloc, journal)?;
    Ok(Some(Command::SearchLanes {
        program,
        asm,
        journal,
        seeds: lanes.seeds,
        workers: lanes.workers,
        turns: lanes.turns,
    }))
}

fn are_file_names(read: &str, written: &str) -> bool
    ensures { result ≡ lanes.are_file_names read.now written.now }
{
    read != written && written != "-"
}

fn are_lane_names(program: &str, asm: &str, journal: &str) -> bool
    ensures { result ≡ lanes.are_lane_names program.now asm.now journal.now }
{
    are_file_names(program, asm) && are_file_names(program, journal) && asm != journal
}

fn eval_of(alloc: Global, matches: &ArgMatches<'_>) -> Result<Option<Command>, AllocError>
    ensures { IfOk result (λ made. made ≡ spec.made_of names.Eval (rows_of (found_of matches.now))) }
{
    let Some(program) = value_of(matches, "PROGRAM") else {
        return Ok(None);
    };
    let Some(inputs) = inputs_or_none(alloc, value_of(matches, "in"))? else {
        return Ok(None);
    };
    let program = Text::from_str(alloc, program)?;
    Ok(Some(Command::Eval { program, inputs }))
}

fn emulate_of(alloc: Global, matches: &ArgMatches<'_>) -> Result<Option<Command>, AllocError>
    ensures { IfOk result (λ made. made ≡ spec.made_of names.Emulate (rows_of (found_of matches.now))) }
{
    let Some(program) = value_of(matches, "PROGRAM") else {
        return Ok(None);
    };
    let Some(asm) = value_of(matches, "ASM") else {
        return Ok(None);
    };
    let Some(inputs) = inputs_or_none(alloc, value_of(matches, "in"))? else {
        return Ok(None);
    };
    let program = Text::from_str(alloc, program)?;
    let asm = Text::from_str(alloc, asm)?;
    Ok(Some(Command::Emulate {
        program,
        asm,
        inputs,
    }))
}

fn check_of(alloc: Global, matches: &ArgMatches<'_>) -> Result<Option<Command>, AllocError>
    ensures { IfOk result (λ made. made ≡ spec.made_of names.Check (rows_of (found_of matches.now))) }
{
    let Some(program) = value_of(matches, "PROGRAM") else {
        return Ok(None);
    };
    let Some(asm) = value_of(matches, "ASM") else {
        return Ok(None);
    };
    let program = Text::from_str(alloc, program)?;
    let asm = Text::from_str(alloc, asm)?;
    Ok(Some(Command::Check { program, asm }))
}

fn show_of(alloc: Global, matches: &ArgMatches<'_>) -> Result<Option<Command>, AllocError>
    ensures { IfOk result (λ made. made ≡ spec.made_of names.Show (rows_of (found_of matches.now))) }
{
    let Some(asm) = value_of(matches, "ASM") else {
        return Ok(None);
    };
    let asm = Text::from_str(alloc, asm)?;
    Ok(Some(Command::Show { asm }))
}

fn replay_of(alloc: Global, matches: &ArgMatches<'_>) -> Result<Option<Command>, AllocError>
    ensures { IfOk result (λ made. made ≡ spec.made_of names.Replay (rows_of (found_of matches.now))) }
{
    let Some(program) = value_of(matches, "PROGRAM") else {
        return Ok(None);
    };
    let Some(journal) = value_of(matches, "JOURNAL") else {
        return Ok(None);
    };
    let Some(asm) = value_of(matches, "ASM") else {
        return Ok(None);
    };
    let program = Text::from_str(alloc, program)?;
    let journal = Text::from_str(alloc, journal)?;
    let asm = Text::from_str(alloc, asm)?;
    Ok(Some(Command::Replay {
        program,
        journal,
        asm,
    }))
}
