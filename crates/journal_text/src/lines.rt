ghost use Rattle.std.specs.Prelude.{◌≡◌, ◌<◌, ◌∷◌, [], length, IfSome, MatchOption};
ghost use Rattle.journal_text.specs.Lines.{full_lines};

use crate::fields::{Cut, bytes_before};

/// The first line of a text, with its line feed where it has one, and what follows it. None exactly where there is no
/// line.
#[tactic(auto, using(crate::proofs::LinesRead::line_steps))]
pub fn next_line(text: &[u8]) -> Option<Cut<'_>>
    ensures shorter { IfSome result (λ cut. length cut.rest.now < length text.now) }
    ensures line { MatchOption result (full_lines text.now ≡ [])
        (λ cut. full_lines text.now ≡ cut.first.now ∷ full_lines cut.rest.now) }
{
    if text.is_empty() {
        return None;
    }
    let end = bytes_before(text, b'\n');
    if end >= text.len() {
        let (first, rest) = text.split_at(end);
        return Some(Cut { first, rest });
    }
    let (first, rest) = text.split_at(end + 1);
    Some(Cut { first, rest })
}
