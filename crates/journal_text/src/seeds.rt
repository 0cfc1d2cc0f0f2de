ghost use Rattle.std.specs.Prelude.{◌≡◌, [], ◌∷◌};
ghost use Rattle.journal_text.specs.Faults.{Reads};
ghost use Rattle.journal_text.specs.Fields as spec;

use crate::fields::{cut_at, number};
use crate::limits::MAX_SEEDS;
use crate::progress::Stop;
use journal_rules::Seeds;
use std::alloc::Global;

/// The seeds that a word spells.
#[tactic(auto, using(crate::proofs::SeedsBoth::seeds_steps), unfolding(crate::specs::Fields::seeds_of))]
pub fn seeds_of(alloc: Global, word: &[u8]) -> Result<Seeds, Stop>
    ensures { Reads (spec.seeds_of word.now) (λ seeds. seeds) result }
{
    let mut seeds = Seeds::new(alloc);
    let mut rest = word;
    while let Some(cut) = cut_at(rest, b',') {
        match push_seed(&mut seeds, cut.first) {
            Ok(()) => rest = cut.rest,
            Err(stop) => return Err(stop),
        }
    }
    match push_seed(&mut seeds, rest) {
        Ok(()) => Ok(seeds),
        Err(stop) => Err(stop),
    }
}

/// Puts the seed that a word is to the others.
fn push_seed(seeds: &mut Seeds, word: &[u8]) -> Result<(), Stop>
    ensures { Reads (spec.with_seed seeds.old word.now) (λ _. seeds.new) result }
{
    if seeds.items().len() >= MAX_SEEDS {
        return Err(Stop::Line);
    }
    let Some(seed) = number(word) else {
        return Err(Stop::Line);
    };
    match seeds.push(seed) {
        Ok(()) => Ok(()),
        Err(_) => Err(Stop::Memory),
    }
}
