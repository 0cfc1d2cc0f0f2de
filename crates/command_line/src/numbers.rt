//! The decimal numbers of the options of `search`, and lists of them.
ghost use Rattle.std.specs.Prelude.{◌≡◌, ◌≤◌, IfOk, IfSome, length, map};
ghost use Rattle.command_line.specs.Numbers as spec;

use crate::command::Words;
use crate::inputs::pieces_of;
use crate::limits::{MAX_DIGITS, MAX_SEEDS};
use base::Items;
use std::alloc::{AllocError, Global};

/// The number that 1 to 20 decimal digits write, where it is below 2^64. Leading zeros are allowed.
#[tactic(auto, unfolding(crate::specs::Numbers::number))]
fn number(text: &str) -> Option<u64>
    ensures { result ≡ spec.number text.now }
{
    if text.len() > MAX_DIGITS {
        return None;
    }
    base::numeral(text.as_bytes(), 10)
}

/// Such a number, where it is from `least` to `most`.
#[tactic(auto, unfolding(crate::specs::Numbers::number_within))]
pub fn number_within(text: &str, least: u64, most: u64) -> Option<u64>
    ensures within { IfSome result (λ n. (least ≤ n) × (n ≤ most)) }
    ensures number { result ≡ spec.number_within least most text.now }
{
    let value = number(text)?;
    if value < least || value > most {
        return None;
    }
    Some(value)
}

/// The numbers of a list with commas, and none where a piece of it is no number, or there are more than 64. The one
/// error is want of memory.
#[tactic(auto, unfolding(crate::specs::Numbers::seeds_of))]
pub fn seeds_of(alloc: Global, list: &str) -> Result<Option<Words>, AllocError>
    ensures count { IfOk result (λ found. IfSome found
        (λ seeds. (1 ≤ length seeds) × (length seeds ≤ MAX_SEEDS))) }
    ensures seeds { IfOk result (λ found. found ≡ spec.seeds_of list.now) }
{
    let pieces = pieces_of(alloc, list)?;
    let Some(seeds) = numbers_of(alloc, pieces.as_slice())? else {
        return Ok(None);
    };
    let count = seeds.items().len();
    if count < 1 || count > MAX_SEEDS {
        return Ok(None);
    }
    Ok(Some(seeds))
}

fn numbers_of(alloc: Global, texts: &[&str]) -> Result<Option<Words>, AllocError>
    ensures { IfOk result (λ found. found ≡ spec.numbers_of (map (λ text. text.now) texts.now)) }
{
    let mut numbers = Items::new(alloc);
    for text in texts {
        let Some(number) = number(text) else {
            return Ok(None);
        };
        numbers.push(number)?;
    }
    Ok(Some(numbers))
}
