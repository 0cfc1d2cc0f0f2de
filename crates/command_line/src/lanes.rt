//! The options of a search by lanes.
ghost use Rattle.std.specs.Prelude.{◌≡◌, ◌≤◌, IfOk, IfSome};
ghost use Rattle.clap.specs.Walk.{rows_of};
ghost use Rattle.clap.specs.Matches.{found_of};
ghost use Rattle.command_line.specs.Lanes as spec;

use crate::command::Words;
use crate::limits::{MAX_OFFERS, MAX_TURNS, MAX_WORKERS};
use crate::numbers::{number_within, seeds_of};
use crate::parsing::value_of;
use clap::ArgMatches;
use std::alloc::{AllocError, Global};

/// What the options of a search say.
#[derive(Drop)]
pub struct Lanes {
    /// The seed of each lane.
    pub seeds: Words,
    /// How many workers work at the lanes.
    pub workers: u8,
    /// How many turns each lane has.
    pub turns: u32,
}

/// What the options say, and none where one of them is missing or breaks a rule. The one error is want of memory.
#[tactic(auto, unfolding(crate::specs::Lanes::lanes_in))]
pub fn lanes_in(alloc: Global, matches: &ArgMatches<'_>) -> Result<Option<Lanes>, AllocError>
    ensures within { IfOk result (λ found. IfSome found
        (λ lanes. spec.AreWithin lanes.seeds lanes.workers lanes.turns)) }
    ensures lanes { IfOk result (λ found. found ≡ spec.lanes_in (rows_of (found_of matches.now))) }
{
    let Some(seeds) = value_of(matches, "seeds") else {
        return Ok(None);
    };
    let Some(workers) = value_of(matches, "workers") else {
        return Ok(None);
    };
    let Some(turns) = value_of(matches, "turns") else {
        return Ok(None);
    };
    lanes_of(alloc, seeds, workers, turns)
}

#[tactic(auto, unfolding(crate::specs::Lanes::lanes_of))]
fn lanes_of(
    alloc: Global,
    seeds: &str,
    workers: &str,
    turns: &str,
) -> Result<Option<Lanes>, AllocError>
    ensures within { IfOk result (λ found. IfSome found
        (λ lanes. spec.AreWithin lanes.seeds lanes.workers lanes.turns)) }
    ensures lanes { IfOk result (λ found. found ≡ spec.lanes_of seeds.now workers.now turns.now) }
{
    let Some(seeds) = seeds_of(alloc, seeds)? else {
        return Ok(None);
    };
    let Some(workers) = number_within(workers, 1, MAX_WORKERS) else {
        return Ok(None);
    };
    let Some(turns) = number_within(turns, 0, MAX_TURNS) else {
        return Ok(None);
    };
    if !are_few(seeds.items().len() as u64, turns) {
        return Ok(None);
    }
    Ok(Some(Lanes {
        seeds,
        workers: workers as u8,
        turns: turns as u32,
    }))
}

fn are_few(lanes: u64, turns: u64) -> bool
    ensures { result ≡ spec.are_few lanes turns }
{
    match lanes.checked_mul(turns) {
        Some(offers) => offers <= MAX_OFFERS,
        None => false,
    }
}
