//! Checks of listings by their texts, and verdicts as texts.
use crate::reading::{listing_of, prepared_of};
use equiv_validator::{Verdict, Why, check};
use std::alloc::{AllocError, Global};
use std::test::Fail;

// A failure's name, with its numbers behind it.
pub fn failure_text(alloc: Global, why: Why) -> Result<String, AllocError> {
    match why {
        Why::Stuck { line } => format!(in alloc; "stuck {line}"),
        Why::Output {
            word,
            source,
            listing: Some(node),
        } => format!(in alloc; "output {word} {source} {node}"),
        Why::Output {
            word,
            source,
            listing: None,
        } => format!(in alloc; "output {word} {source} none"),
        Why::Saved { reg } => format!(in alloc; "saved {reg:?}"),
        Why::Stack => String::from_str(alloc, "stack"),
    }
}

// A verdict's name, with its numbers behind it.
pub fn verdict_text(alloc: Global, verdict: Verdict) -> Result<String, AllocError> {
    match verdict {
        Verdict::Proved(_) => String::from_str(alloc, "proved"),
        Verdict::Not(why) => failure_text(alloc, why),
    }
}

// Whether the check of a listing, with `; ` between each two lines, for a program ends with this verdict.
pub fn gives(alloc: Global, program: &str, lines: &str, verdict: &str) -> Result<bool, Fail> {
    let Some(prepared) = prepared_of(alloc, program)? else {
        return Ok(false);
    };
    let lines = lines.replace(alloc, "; ", "\n")?;
    let Some(listing) = listing_of(alloc, lines.as_str())? else {
        return Ok(false);
    };
    let found = verdict_text(alloc, check(alloc, &prepared, &listing)?)?;
    Ok(found.as_str() == verdict)
}
