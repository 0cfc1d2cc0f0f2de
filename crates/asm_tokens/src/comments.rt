ghost use Rattle.std.specs.Prelude.{◌≡◌};
ghost use Rattle.asm_tokens.specs.Comments.{comment_number};

use crate::lexing::next;
use base::numeral;

/// The decimal number that a comment is, but for blanks at its ends. None exactly where it is anything else,
/// or 2^64 or more.
#[tactic(auto, unfolding(crate::specs::Comments::comment_number))]
pub fn comment_number(comment: &[u8]) -> Option<u64>
    ensures { result ≡ comment_number comment.now }
{
    let only = next(comment)?;
    if next(only.rest).is_some() {
        return None;
    }
    numeral(only.text, 10)
}
