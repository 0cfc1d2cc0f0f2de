//! The list of input words on a command line.
ghost use Rattle.std.specs.Prelude.{◌≡◌, ◌==◌, IfOk, List, map, option_map};
ghost use Rattle.std.specs.List.{slice_split};
ghost use Rattle.command_line.specs.Inputs as spec;

use crate::command::Words;
use base::Items;
use std::alloc::{AllocError, Global};

/// The words of a list with commas, and none where a piece of it is no word. A list that is not there has no
/// words. The one error is want of memory.
pub fn inputs_or_none(alloc: Global, list: Option<&str>) -> Result<Option<Words>, AllocError>
    ensures { IfOk result (λ found. found ≡ spec.inputs_or_none (option_map (λ l. l.now) list.entry)) }
{
    match list {
        None => Ok(Some(Items::new(alloc))),
        Some(list) => inputs_of(alloc, list),
    }
}

#[tactic(auto, unfolding(crate::specs::Inputs::inputs_of))]
fn inputs_of(alloc: Global, list: &str) -> Result<Option<Words>, AllocError>
    ensures { IfOk result (λ found. found ≡ spec.inputs_of list.now) }
{
    let pieces = pieces_of(alloc, list)?;
    words_of(alloc, pieces.as_slice())
}

/// The pieces of a list between its commas.
pub fn pieces_of<'a>(alloc: Global, list: &'a str) -> Result<Vec<&'a str>, AllocError>
    ensures { IfOk result (λ v. map (λ piece. piece.now) v.items ≡ slice_split (λ b. b == 44) list.entry.now) }
{
    list.split(',').collect(alloc)
}

fn words_of(alloc: Global, texts: &[&str]) -> Result<Option<Words>, AllocError>
    ensures { IfOk result (λ found. found ≡ spec.words_of (map (λ text. text.now) texts.now)) }
{
    let mut words = Items::new(alloc);
    for text in texts {
        let Some(word) = base::word(text.as_bytes()) else {
            return Ok(None);
        };
        words.push(word)?;
    }
    Ok(Some(words))
}
