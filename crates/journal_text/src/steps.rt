ghost use Rattle.std.specs.Prelude.{◌≡◌, ◌≤◌, IsTrue, length, option_map};
ghost use Rattle.journal_text.specs.Faults.{Reads};
ghost use Rattle.journal_text.specs.Reading as spec;
ghost use Rattle.journal_text.specs.declared.limits.TheConstants as limits;
ghost use Rattle.journal_text.specs.declared.progress.Stage.TheVariants as stages;

use crate::entries::entry_of;
use crate::fields::{after, digest_of, last_number, last_word};
use crate::limits::{MAX_COST, MAX_ENTRIES, MAX_TURNS};
use crate::progress::{Progress, Stage, Stop};
use crate::seeds::seeds_of;
use mutations::Draw;
use std::alloc::Global;

/// Reads the next line.
#[tactic(auto, unfolding(crate::specs::Reading::step))]
pub fn step(alloc: Global, progress: &mut Progress, line: &[u8]) -> Result<(), Stop>
    ensures { Reads (spec.step progress.old line.now) (λ _. progress.new) result }
{
    match progress.stage {
        Stage::Version => take_version(progress, line),
        Stage::Program => take_program(progress, line),
        Stage::Seeds => take_seeds(alloc, progress, line),
        Stage::Turns => take_turns(progress, line),
        Stage::Opening => take_opening(progress, line),
        Stage::Entries => take_entry_or_end(progress, line),
        Stage::Done => Err(Stop::Line),
    }
}

/// The number of line 1, where the line is right but for it.
#[tactic(auto, unfolding(crate::specs::Reading::version_in))]
pub fn version_in(line: &[u8]) -> Option<u64>
    ensures { result ≡ spec.version_in line.now }
{
    last_number(after(line, b"cryptopt-journal ".as_slice())?)
}

#[tactic(auto, unfolding(crate::specs::Reading::draw_of))]
fn draw_of(version: u64) -> Option<Draw>
    ensures { result ≡ spec.draw_of version }
{
    if version == 1 {
        return Some(Draw::One);
    }
    if version == 2 {
        return Some(Draw::Two);
    }
    None
}

#[tactic(auto, unfolding(crate::specs::Reading::draw_in))]
fn draw_in(line: &[u8]) -> Option<Draw>
    ensures { result ≡ spec.draw_in line.now }
{
    draw_of(version_in(line)?)
}

#[tactic(auto, unfolding(crate::specs::Reading::take_version))]
fn take_version(progress: &mut Progress, line: &[u8]) -> Result<(), Stop>
    ensures { Reads (spec.take_version progress.old.journal line.now) (λ _. progress.new) result }
{
    let Some(draw) = draw_in(line) else {
        return Err(Stop::Line);
    };
    progress.journal.draw = draw;
    progress.stage = Stage::Program;
    Ok(())
}

#[tactic(auto, unfolding(crate::specs::Reading::digest_in))]
fn digest_in(line: &[u8]) -> Option<[u8; 32]>
    ensures { result ≡ spec.digest_in line.now }
{
    digest_of(last_word(after(line, b"program ".as_slice())?)?)
}

#[tactic(auto, unfolding(crate::specs::Reading::take_program))]
fn take_program(progress: &mut Progress, line: &[u8]) -> Result<(), Stop>
    ensures { Reads (spec.take_program progress.old.journal line.now) (λ _. progress.new) result }
{
    let Some(digest) = digest_in(line) else {
        return Err(Stop::Line);
    };
    progress.journal.digest = digest;
    progress.stage = Stage::Seeds;
    Ok(())
}

#[tactic(auto, unfolding(crate::specs::Reading::seeds_word))]
fn seeds_word(line: &[u8]) -> Option<&[u8]>
    ensures { option_map (λ word. word.now) result ≡ spec.seeds_word line.now }
{
    last_word(after(line, b"seeds ".as_slice())?)
}

#[tactic(auto, unfolding(crate::specs::Reading::take_seeds))]
fn take_seeds(alloc: Global, progress: &mut Progress, line: &[u8]) -> Result<(), Stop>
    ensures { Reads (spec.take_seeds progress.old.journal line.now) (λ _. progress.new) result }
{
    let Some(word) = seeds_word(line) else {
        return Err(Stop::Line);
    };
    match seeds_of(alloc, word) {
        Ok(seeds) => {
            progress.journal.seeds = seeds;
            progress.stage = Stage::Turns;
            Ok(())
        }
        Err(stop) => Err(stop),
    }
}

#[tactic(auto, unfolding(crate::specs::Reading::turns_in))]
fn turns_in(line: &[u8]) -> Option<u64>
    ensures { result ≡ spec.turns_in line.now }
{
    last_number(after(line, b"turns ".as_slice())?)
}

/// Whether so many turns for each of so many seeds are within the limits.
#[tactic(auto, unfolding(crate::specs::Reading::are_few))]
fn are_few(seeds: usize, turns: u64) -> bool
    ensures within { IsTrue result → turns ≤ limits.MAX_TURNS }
    ensures few { result ≡ spec.are_few seeds turns }
{
    if turns > MAX_TURNS {
        return false;
    }
    match (seeds as u64).checked_mul(turns) {
        Some(offers) => offers <= MAX_ENTRIES as u64,
        None => false,
    }
}

#[tactic(auto, unfolding(crate::specs::Reading::take_turns))]
fn take_turns(progress: &mut Progress, line: &[u8]) -> Result<(), Stop>
    ensures { Reads (spec.take_turns progress.old.journal line.now) (λ _. progress.new) result }
{
    let Some(turns) = turns_in(line) else {
        return Err(Stop::Line);
    };
    if !are_few(progress.journal.seeds.items().len(), turns) {
        return Err(Stop::Line);
    }
    progress.journal.turns = turns as u32;
    progress.stage = Stage::Opening;
    Ok(())
}

#[tactic(auto, unfolding(crate::specs::Reading::opening_in))]
fn opening_in(line: &[u8]) -> Option<u64>
    ensures { result ≡ spec.opening_in line.now }
{
    last_number(after(line, b"opening ".as_slice())?)
}

#[tactic(auto, unfolding(crate::specs::Reading::take_opening))]
fn take_opening(progress: &mut Progress, line: &[u8]) -> Result<(), Stop>
    ensures { Reads (spec.take_opening progress.old.journal line.now) (λ _. progress.new) result }
{
    let Some(cost) = opening_in(line) else {
        return Err(Stop::Line);
    };
    if cost > MAX_COST {
        return Err(Stop::Line);
    }
    progress.journal.opening = cost;
    progress.stage = Stage::Entries;
    Ok(())
}

#[tactic(auto, unfolding(crate::specs::Reading::take_entry_or_end))]
fn take_entry_or_end(progress: &mut Progress, line: &[u8]) -> Result<(), Stop>
    requires { progress.old.stage ≡ stages.Entries }
    ensures { Reads (spec.take_entry_or_end progress.old.journal line.now) (λ _. progress.new) result }
{
    if line == b"end\n".as_slice() {
        progress.stage = Stage::Done;
        return Ok(());
    }
    take_entry(progress, line)
}

#[tactic(auto, unfolding(crate::specs::Reading::take_entry))]
fn take_entry(progress: &mut Progress, line: &[u8]) -> Result<(), Stop>
    requires { progress.old.stage ≡ stages.Entries }
    ensures { Reads (spec.take_entry progress.old.journal line.now) (λ _. progress.new) result }
{
    if progress.journal.entries.items().len() >= MAX_ENTRIES {
        return Err(Stop::Line);
    }
    let Some(entry) = entry_of(progress.journal.draw, line) else {
        return Err(Stop::Line);
    };
    match progress.journal.entries.push(entry) {
        Ok(()) => Ok(()),
        Err(_) => Err(Stop::Memory),
    }
}
