ghost use Rattle.std.specs.Prelude.{◌≡◌, ◌<◌, ◌≤◌, option_map, IfSome};
ghost use Rattle.journal_text.specs.Entries as spec;

use crate::fields::{after, number_to};
use crate::limits::{MAX_CHAIN, MAX_COST, MAX_LANE, MAX_SEEN, MAX_SLOT, MAX_TEMPLATE, MAX_TURN};
use journal_rules::Entry;
use mutations::{Draw, Mutation};

/// The entry that a line is, None where it is none.
#[tactic(auto, unfolding(crate::specs::Entries::entry_of))]
pub fn entry_of(draw: Draw, line: &[u8]) -> Option<Entry>
    ensures { result ≡ spec.entry_of draw line.now }
{
    let (lane, turn, seen, rest) = place_at(line)?;
    let (mutation, rest) = mutation_at(draw, rest)?;
    let (cost, rest) = number_to(rest, b' ', MAX_COST)?;
    let plain = mark_of(rest)?;
    Some(Entry {
        lane,
        turn,
        seen,
        mutation,
        cost,
        plain,
    })
}

/// The lane, the turn and what was seen, and what stands behind them.
#[tactic(auto, unfolding(crate::specs::Entries::place_at))]
fn place_at(line: &[u8]) -> Option<(u8, u32, u32, &[u8])>
    ensures { option_map (λ p. (p.0, p.1, p.2, p.3.now)) result ≡ spec.place_at line.now }
{
    let rest = after(line, b"entry ".as_slice())?;
    let (lane, rest) = number_to(rest, b' ', MAX_LANE)?;
    let (turn, rest) = number_to(rest, b' ', MAX_TURN)?;
    let (seen, rest) = number_to(rest, b' ', MAX_SEEN)?;
    Some((lane as u8, turn as u32, seen as u32, rest))
}

/// Whether the mark is `plain`; else it is `fast`.
#[tactic(auto, unfolding(crate::specs::Entries::mark_of))]
fn mark_of(text: &[u8]) -> Option<bool>
    ensures { result ≡ spec.mark_of text.now }
{
    if text == b"plain\n".as_slice() {
        return Some(true);
    }
    if text == b"fast\n".as_slice() {
        return Some(false);
    }
    None
}

/// A mutation, and what stands behind its last space.
#[tactic(auto, unfolding(crate::specs::Entries::mutation_at))]
fn mutation_at(draw: Draw, text: &[u8]) -> Option<(Mutation, &[u8])>
    ensures { option_map (λ p. (p.0, p.1.now)) result ≡ spec.mutation_at draw text.now }
{
    if let Some(rest) = after(text, b"move ".as_slice()) {
        return move_at(rest);
    }
    if let Some(rest) = after(text, b"template ".as_slice()) {
        return template_at(rest);
    }
    if let Some(rest) = after(text, b"swap ".as_slice()) {
        return swap_at(rest);
    }
    if let Some(rest) = after(text, b"load ".as_slice()) {
        return load_at(rest);
    }
    chain_at(draw, after(text, b"chain ".as_slice())?)
}

#[tactic(auto, unfolding(crate::specs::Entries::move_at))]
fn move_at(text: &[u8]) -> Option<(Mutation, &[u8])>
    ensures { option_map (λ p. (p.0, p.1.now)) result ≡ spec.move_at text.now }
{
    let (slot, to, rest) = pair_to(text, MAX_SLOT)?;
    let to = to as u16;
    Some((Mutation::Move { slot, to }, rest))
}

#[tactic(auto, unfolding(crate::specs::Entries::template_at))]
fn template_at(text: &[u8]) -> Option<(Mutation, &[u8])>
    ensures { option_map (λ p. (p.0, p.1.now)) result ≡ spec.template_at text.now }
{
    let (slot, number, rest) = pair_to(text, MAX_TEMPLATE)?;
    let number = number as u8;
    Some((Mutation::Template { slot, number }, rest))
}

#[tactic(auto, unfolding(crate::specs::Entries::swap_at))]
fn swap_at(text: &[u8]) -> Option<(Mutation, &[u8])>
    ensures { option_map (λ p. (p.0, p.1.now)) result ≡ spec.swap_at text.now }
{
    let (slot, rest) = number_to(text, b' ', MAX_SLOT)?;
    let slot = slot as u16;
    Some((Mutation::Swap { slot }, rest))
}

#[tactic(auto, unfolding(crate::specs::Entries::load_at))]
fn load_at(text: &[u8]) -> Option<(Mutation, &[u8])>
    ensures { option_map (λ p. (p.0, p.1.now)) result ≡ spec.load_at text.now }
{
    let (slot, rest) = number_to(text, b' ', MAX_SLOT)?;
    let slot = slot as u16;
    Some((Mutation::Load { slot }, rest))
}

/// Chains stand in version 2 alone.
#[tactic(auto, unfolding(crate::specs::Entries::chain_at))]
fn chain_at(draw: Draw, text: &[u8]) -> Option<(Mutation, &[u8])>
    ensures { option_map (λ p. (p.0, p.1.now)) result ≡ spec.chain_at draw text.now }
{
    if !has_chains(draw) {
        return None;
    }
    let (slot, number, rest) = pair_to(text, MAX_CHAIN)?;
    if number < 1 {
        return None;
    }
    let number = number as u8;
    Some((Mutation::Chain { slot, number }, rest))
}

fn has_chains(draw: Draw) -> bool
    ensures { result ≡ spec.has_chains draw }
{
    match draw {
        Draw::One => false,
        Draw::Two => true,
    }
}

/// A slot, and a number that is at most `max`.
#[tactic(auto, unfolding(crate::specs::Entries::pair_to))]
fn pair_to(text: &[u8], max: u64) -> Option<(u16, u64, &[u8])>
    ensures within { IfSome result (λ p. p.1 ≤ max) }
    ensures pair { option_map (λ p. (p.0, p.1, p.2.now)) result ≡ spec.pair_to max text.now }
{
    let (slot, rest) = number_to(text, b' ', MAX_SLOT)?;
    let (number, rest) = number_to(rest, b' ', max)?;
    Some((slot as u16, number, rest))
}
