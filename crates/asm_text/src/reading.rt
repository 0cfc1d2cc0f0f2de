ghost use Rattle.std.specs.Prelude.{◌≡◌, ◌<◌, ◌≤◌, ◌^◌, true, ◌-◌, ◌++◌, ◌∷◌, [], length, option_map, OnOk, OnErr};
ghost use Rattle.std.specs.Prelude.{IfOk, IfErr, MatchResult, Ok, Err};
ghost use Rattle.x86_instr.specs.Listings.{ends_at_ret, listing_of};
ghost use Rattle.asm_text.specs.Reading as spec;
ghost use Rattle.asm_text.specs.Views.{item_view, stage_view};
ghost use Rattle.std.specs.Str.Lines.{lines};
ghost use Rattle.asm_text.specs.Faults.{Gives, Told, answer, listing_answer};
ghost use Rattle.asm_text.specs.Texts.{Stands, Refuses};

use crate::fault::TextFault;
use crate::items::{Item, item_in};
use asm_tokens::next_line;
use base::MAX_LINES;
use std::alloc::{AllocError, Global};
use x86_instr::{Lines, Listing, ListingFault, Text};

/// The header lines that were read.
#[derive(Clone, Copy)]
enum Stage<'a> {
    Start,
    Syntax,
    Text,
    Named(&'a str),
    Body(&'a str),
}

/// The name and the lines of a text.
#[derive(Drop)]
struct Found {
    name: Text,
    lines: Lines,
}

/// The listing that a text stands for. `Line` comes exactly where some line is faulty, with the number of the first
/// one, counted from 1: no text that stands for a listing begins with the lines up to it. Where the text ends before
/// its fourth header line, the number is that of its lines plus 1. Otherwise `TooLong` comes exactly where there are
/// more than 65,536 instructions, and otherwise `NoReturn` exactly where the last one is not the only `ret`. It takes
/// time linear in the bytes, and memory for the listing alone. There are at most 2^32 - 2 bytes, so that the lines
/// can be counted.
pub fn read(alloc: Global, bytes: &[u8]) -> Result<Listing, TextFault>
    requires { length bytes.now ≤ 2 ^ 32 - 2 }
    ensures ok { IfOk result (λ listing. Stands (lines bytes.now) listing) }
    ensures rules { IfOk result (λ listing. (length listing.lines ≤ MAX_LINES) × (ends_at_ret listing.lines ≡ true)) }
    ensures err { IfErr result (λ fault. Refuses (lines bytes.now) fault) }
{
    read_listing(alloc, bytes)
}

/// The same by the reading line by line.
#[tactic(auto, unfolding(crate::specs::Faults::answer))]
fn read_listing(alloc: Global, bytes: &[u8]) -> Result<Listing, TextFault>
    requires { length bytes.now ≤ 2 ^ 32 - 2 }
    ensures answer { Told result (answer bytes.now) }
    ensures rules { IfOk result (λ listing. (length listing.lines ≤ MAX_LINES) × (ends_at_ret listing.lines ≡ true)) }
{
    match read_text(alloc, bytes) {
        Ok(found) => listing(alloc, found),
        Err(fault) => Err(fault),
    }
}

fn listing(alloc: Global, found: Found) -> Result<Listing, TextFault>
    ensures answer { result ≡ listing_answer found.name found.lines }
    ensures rules { IfOk result (λ listing. (length listing.lines ≤ MAX_LINES) × (ends_at_ret listing.lines ≡ true)) }
{
    match Listing::new(alloc, found.name, found.lines) {
        Ok(listing) => Ok(listing),
        Err(ListingFault::TooLong) => Err(TextFault::TooLong),
        Err(ListingFault::NoReturn) => Err(TextFault::NoReturn),
    }
}

/// The parts of the listing that a text stands for, or its first faulty line.
#[tactic(auto, using(crate::proofs::Walks::reading_steps), unfolding(crate::specs::Reading::read_text))]
fn read_text(alloc: Global, bytes: &[u8]) -> Result<Found, TextFault>
    requires { length bytes.now ≤ 2 ^ 32 - 2 }
    ensures { Gives (λ found. spec.named_lines found.name found.lines) result (spec.read_text bytes.now) }
{
    let mut rest = bytes;
    let mut number = 1u32;
    let mut stage = Stage::Start;
    let mut lines = Lines::new(alloc);
    while let Some(cut) = next_line(rest) {
        let Some(item) = item_in(cut.first) else {
            return Err(TextFault::Line(number));
        };
        let Some(next_stage) = next_stage(stage, &item) else {
            return Err(TextFault::Line(number));
        };
        if keep(&mut lines, &item).is_err() {
            return Err(TextFault::Memory);
        }
        stage = next_stage;
        rest = cut.rest;
        number += 1;
    }
    match body_name(stage) {
        Some(name) => with_name(alloc, name, lines),
        None => Err(TextFault::Line(number)),
    }
}

fn with_name(alloc: Global, name: &str, lines: Lines) -> Result<Found, TextFault>
    ensures { Gives (λ found. spec.named_lines found.name found.lines) result (Ok (spec.named_lines name.now lines)) }
{
    match Text::from_str(alloc, name) {
        Ok(name) => Ok(Found { name, lines }),
        Err(_) => Err(TextFault::Memory),
    }
}

fn next_stage<'a>(stage: Stage<'a>, item: &Item<'a>) -> Option<Stage<'a>>
    ensures { option_map stage_view result ≡ spec.next_stage (stage_view stage.entry) (item_view item.now) }
{
    match (stage, item) {
        (stage, Item::Blank) => Some(stage),
        (Stage::Start, Item::Syntax) => Some(Stage::Syntax),
        (Stage::Syntax, Item::Text) => Some(Stage::Text),
        (Stage::Text, Item::Global(name)) => Some(Stage::Named(name)),
        (Stage::Named(name), Item::Label(other)) => labelled(name, other),
        (Stage::Body(name), Item::Code(_)) => Some(Stage::Body(name)),
        _ => None,
    }
}

fn labelled<'a>(name: &'a str, other: &str) -> Option<Stage<'a>>
    ensures { option_map stage_view result ≡ spec.labelled name.now other.now }
{
    if name != other {
        return None;
    }
    Some(Stage::Body(name))
}

fn body_name(stage: Stage<'_>) -> Option<&str>
    ensures { option_map (λ name. name.now) result ≡ spec.body_name (stage_view stage.entry) }
{
    match stage {
        Stage::Body(name) => Some(name),
        _ => None,
    }
}

/// Puts the line of an instruction to those found.
fn keep(lines: &mut Lines, item: &Item<'_>) -> Result<(), AllocError>
    ensures { OnOk result (lines.new ≡ spec.grown lines.old (item_view item.now)) }
{
    match item {
        Item::Code(line) => lines.push(*line),
        _ => Ok(()),
    }
}
