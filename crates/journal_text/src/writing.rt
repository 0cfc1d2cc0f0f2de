ghost use Rattle.std.specs.Prelude.{◌≡◌, ◌<◌, ◌^◌, ◌++◌, length, IfOk, OnOk, string_bytes};
ghost use Rattle.std.specs.List.{AllByRecursion, flat_map};
ghost use Rattle.hex.specs.Hex.{IsBytes};
ghost use Rattle.journal_text.specs.Limits.{IsTyped, IsWithin};
ghost use Rattle.journal_text.specs.Lines.{full_lines};
ghost use Rattle.journal_text.specs.Stands.{Stands};
ghost use Rattle.journal_text.specs.Text as spec;

use itoa::Buffer;
use journal_rules::{Entry, Journal};
use mutations::{Draw, Mutation};
use std::alloc::{AllocError, Global};

/// The text of a journal within the limits. The text stands for the journal, and for no other one. The one error is
/// want of memory. It takes time linear in the text.
pub fn write(alloc: Global, journal: &Journal) -> Result<Vec<u8>, AllocError>
    requires { IsWithin journal.now }
    ensures text { IfOk result (λ text. text.items ≡ spec.text_of journal.now) }
    ensures stands { IfOk result (λ text. Stands (full_lines text.items) journal.now) }
{
    let text = text_of(alloc, journal)?;
    Ok(text)
}

#[tactic(auto, using(crate::proofs::Written::text_pieces))]
fn text_of(alloc: Global, journal: &Journal) -> Result<Vec<u8>, AllocError>
    ensures text { IfOk result (λ text. text.items ≡ spec.text_of journal.now) }
    ensures typed { OnOk result (IsTyped journal.now) }
{
    let mut text = String::new(alloc);
    push_version(&mut text, journal.draw)?;
    push_program(alloc, &mut text, &journal.digest)?;
    push_seeds(&mut text, journal.seeds.items())?;
    push_numbers(&mut text, journal.turns as u64, journal.opening)?;
    push_entries(&mut text, journal.entries.items())?;
    text.push_str("end\n")?;
    Ok(text.into_bytes())
}

#[tactic(auto, unfolding(crate::specs::Text::first_line))]
fn push_version(text: &mut String, draw: Draw) -> Result<(), AllocError>
    ensures { OnOk result (string_bytes text.new ≡ string_bytes text.old ++ spec.first_line (spec.version_of draw)) }
{
    text.push_str("cryptopt-journal ")?;
    push_ended(text, version_of(draw))
}

fn version_of(draw: Draw) -> u64
    ensures { result ≡ spec.version_of draw }
{
    match draw {
        Draw::One => 1,
        Draw::Two => 2,
    }
}

#[tactic(auto, unfolding(crate::specs::Text::program_line))]
fn push_program(alloc: Global, text: &mut String, digest: &[u8; 32]) -> Result<(), AllocError>
    ensures long { length digest.now ≡ 32 }
    ensures bytes { IsBytes digest.now }
    ensures text { OnOk result (string_bytes text.new ≡ string_bytes text.old ++ spec.program_line digest.now) }
{
    text.push_str("program ")?;
    text.push_str(hex::encode(alloc, digest.as_slice())?.as_str())?;
    text.push_str("\n")
}

#[tactic(auto, unfolding(crate::specs::Text::seeds_line))]
fn push_seeds(text: &mut String, seeds: &[u64]) -> Result<(), AllocError>
    ensures text { OnOk result (string_bytes text.new ≡ string_bytes text.old ++ spec.seeds_line seeds.now) }
    ensures small { OnOk result (AllByRecursion (λ seed. seed < 2 ^ 64) seeds.now) }
{
    text.push_str("seeds ")?;
    push_list(text, seeds)?;
    text.push_str("\n")
}

/// Numbers with commas between them.
#[tactic(auto, using(crate::proofs::Written::list_steps))]
fn push_list(text: &mut String, seeds: &[u64]) -> Result<(), AllocError>
    ensures text { OnOk result (string_bytes text.new ≡ string_bytes text.old ++ spec.seeds_text seeds.now) }
    ensures small { OnOk result (AllByRecursion (λ seed. seed < 2 ^ 64) seeds.now) }
{
    for (index, seed) in seeds.iter().enumerate() {
        if index > 0 {
            text.push_str(",")?;
        }
        text.push_str(Buffer::new().format(*seed))?;
    }
    Ok(())
}

/// The lines of the turns and of the opening's cost.
#[tactic(auto, unfolding(crate::specs::Text::turns_line, crate::specs::Text::opening_line))]
fn push_numbers(text: &mut String, turns: u64, opening: u64) -> Result<(), AllocError>
    ensures { OnOk result (string_bytes text.new ≡ string_bytes text.old
        ++ (spec.turns_line turns ++ spec.opening_line opening)) }
{
    text.push_str("turns ")?;
    push_ended(text, turns)?;
    text.push_str("opening ")?;
    push_ended(text, opening)
}

fn push_entries(text: &mut String, entries: &[Entry]) -> Result<(), AllocError>
    ensures { OnOk result (string_bytes text.new ≡ string_bytes text.old ++ flat_map spec.entry_line entries.now) }
{
    for entry in entries {
        push_entry(text, *entry)?;
    }
    Ok(())
}

#[tactic(auto, unfolding(crate::specs::Text::entry_line))]
fn push_entry(text: &mut String, entry: Entry) -> Result<(), AllocError>
    ensures { OnOk result (string_bytes text.new ≡ string_bytes text.old ++ spec.entry_line entry) }
{
    push_place(text, entry)?;
    push_mutation(text, entry.mutation)?;
    push_spaced(text, entry.cost)?;
    text.push_str(if entry.plain { "plain\n" } else { "fast\n" })
}

#[tactic(auto, unfolding(crate::specs::Text::place_text))]
fn push_place(text: &mut String, entry: Entry) -> Result<(), AllocError>
    ensures { OnOk result (string_bytes text.new ≡ string_bytes text.old ++ spec.place_text entry) }
{
    text.push_str("entry ")?;
    push_spaced(text, entry.lane as u64)?;
    push_spaced(text, entry.turn as u64)?;
    push_spaced(text, entry.seen as u64)
}

#[tactic(auto, unfolding(crate::specs::Text::mutation_text))]
fn push_mutation(text: &mut String, mutation: Mutation) -> Result<(), AllocError>
    ensures { OnOk result (string_bytes text.new ≡ string_bytes text.old ++ spec.mutation_text mutation) }
{
    match mutation {
        Mutation::Move { slot, to } => push_pair(text, "move ", slot, to as u64),
        Mutation::Template { slot, number } => push_pair(text, "template ", slot, number as u64),
        Mutation::Swap { slot } => push_slot(text, "swap ", slot),
        Mutation::Load { slot } => push_slot(text, "load ", slot),
        Mutation::Chain { slot, number } => push_pair(text, "chain ", slot, number as u64),
    }
}

fn push_pair(text: &mut String, name: &str, slot: u16, number: u64) -> Result<(), AllocError>
    ensures { OnOk result (string_bytes text.new ≡ string_bytes text.old
        ++ (name.now ++ (spec.spaced slot ++ spec.spaced number))) }
{
    text.push_str(name)?;
    push_spaced(text, slot as u64)?;
    push_spaced(text, number)
}

fn push_slot(text: &mut String, name: &str, slot: u16) -> Result<(), AllocError>
    ensures { OnOk result (string_bytes text.new ≡ string_bytes text.old ++ (name.now ++ spec.spaced slot)) }
{
    text.push_str(name)?;
    push_spaced(text, slot as u64)
}

/// A number and a space.
fn push_spaced(text: &mut String, number: u64) -> Result<(), AllocError>
    ensures { OnOk result (string_bytes text.new ≡ string_bytes text.old ++ spec.spaced number) }
{
    text.push_str(Buffer::new().format(number))?;
    text.push_str(" ")
}

/// A number at the end of a line.
fn push_ended(text: &mut String, number: u64) -> Result<(), AllocError>
    ensures { OnOk result (string_bytes text.new ≡ string_bytes text.old ++ spec.ended number) }
{
    text.push_str(Buffer::new().format(number))?;
    text.push_str("\n")
}
