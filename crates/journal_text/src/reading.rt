ghost use Rattle.std.specs.Prelude.{◌≡◌, IfOk, IfErr};
ghost use Rattle.journal_text.specs.Faults.{Gives};
ghost use Rattle.journal_text.specs.Limits.{IsWithin};
ghost use Rattle.journal_text.specs.Lines.{full_lines};
ghost use Rattle.journal_text.specs.Reading as spec;
ghost use Rattle.journal_text.specs.Stands.{Refuses, Stands};

use crate::fault::JournalFault;
use crate::lines::next_line;
use crate::progress::{Progress, Stage, Stop};
use crate::steps::{step, version_in};
use journal_rules::{Entries, Journal, Seeds};
use mutations::Draw;
use std::alloc::Global;

/// The journal that a text stands for. `Version` comes exactly where line 1 is right but for its number, which is
/// another one than 1 and 2. Otherwise `Line` comes exactly where some line is faulty, with the number of the first
/// one, counted from 1: no text that stands for a journal begins with the lines up to it. Where the text ends early,
/// the number is that of its whole lines plus 1. It takes time linear in the bytes, and memory for the journal alone.
pub fn read(alloc: Global, bytes: &[u8]) -> Result<Journal, JournalFault>
    ensures ok { IfOk result (λ journal. Stands (full_lines bytes.now) journal) }
    ensures within { IfOk result (λ journal. IsWithin journal) }
    ensures err { IfErr result (λ fault. Refuses (full_lines bytes.now) fault) }
{
    match other_version(bytes) {
        Some(found) => Err(JournalFault::Version { found }),
        None => read_text(alloc, bytes),
    }
}

/// The number of line 1, where the line is right but for it, and it is neither 1 nor 2.
fn other_version(bytes: &[u8]) -> Option<u64>
    ensures { result ≡ spec.first_other (full_lines bytes.now) }
{
    match next_line(bytes) {
        Some(cut) => other_in(cut.first),
        None => None,
    }
}

#[tactic(auto, unfolding(crate::specs::Reading::other_in))]
fn other_in(line: &[u8]) -> Option<u64>
    ensures { result ≡ spec.other_in line.now }
{
    let version = version_in(line)?;
    if version == 1 || version == 2 {
        return None;
    }
    Some(version)
}

/// The journal of a text, or its first faulty line.
#[tactic(auto, using(crate::proofs::Walk::reading_steps), unfolding(crate::specs::Reading::read_text))]
fn read_text(alloc: Global, bytes: &[u8]) -> Result<Journal, JournalFault>
    ensures { Gives (spec.read_text bytes.now) result }
{
    let mut progress = start(alloc);
    let mut rest = bytes;
    let mut number = 1u32;
    while let Some(cut) = next_line(rest) {
        match step(alloc, &mut progress, cut.first) {
            Ok(()) => {}
            Err(Stop::Line) => return Err(JournalFault::Line(number)),
            Err(Stop::Memory) => return Err(JournalFault::Memory),
        }
        rest = cut.rest;
        number += 1;
    }
    match progress.stage {
        Stage::Done => Ok(progress.journal),
        _ => Err(JournalFault::Line(number)),
    }
}

fn start(alloc: Global) -> Progress
    ensures { result ≡ spec.start }
{
    let journal = Journal {
        draw: Draw::One,
        digest: [0; 32],
        seeds: Seeds::new(alloc),
        turns: 0,
        opening: 0,
        entries: Entries::new(alloc),
    };
    Progress {
        stage: Stage::Version,
        journal,
    }
}
