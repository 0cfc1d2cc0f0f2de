ghost use Rattle.std.specs.Prelude.{◌≡◌, ◌<◌, ◌≤◌, ◌==◌, ◌∷◌, [], length, MatchOption, IfSome};
ghost use Rattle.std.specs.List.{position_or_len, before_first, after_first};
ghost use Rattle.std.specs.Str.Lines.{lines, strip_carriage_return};
ghost use Rattle.asm_tokens.specs.Lines.{is_feed, is_hash};

/// A text in two parts.
#[derive(Clone, Copy)]
pub struct Cut<'a> {
    pub first: &'a [u8],
    pub rest: &'a [u8],
}

/// The first line of a text, without its line feed and the carriage return before that, and what follows it.
/// None exactly where there is no line.
#[tactic(auto, using(crate::proofs::Walk::lines_next, crate::proofs::Walk::lines_last))]
pub fn next_line(text: &[u8]) -> Option<Cut<'_>>
    ensures shorter { IfSome result (λ r. length r.rest.now < length text.now) }
    ensures line { MatchOption result (lines text.now ≡ []) (λ r. lines text.now ≡ r.first.now ∷ lines r.rest.now) }
{
    if text.is_empty() {
        return None;
    }
    let end = line_len(text);
    let (first, feed) = text.split_at(end);
    if feed.is_empty() {
        return Some(Cut { first, rest: feed });
    }
    let (_, rest) = feed.split_at(1);
    Some(Cut {
        first: without_return(first),
        rest,
    })
}

/// A line in what stands before its first `#` and what stands behind it, which is nothing where there is no `#`.
pub fn split_comment(line: &[u8]) -> Cut<'_>
    ensures first { result.first.now ≡ before_first is_hash line.now }
    ensures rest { result.rest.now ≡ after_first is_hash line.now }
{
    let (first, comment) = line.split_at(code_len(line));
    if comment.is_empty() {
        return Cut {
            first,
            rest: comment,
        };
    }
    let (_, rest) = comment.split_at(1);
    Cut { first, rest }
}

fn without_return(line: &[u8]) -> &[u8]
    ensures { result.now ≡ strip_carriage_return line.now }
{
    if !line.is_empty() && line[line.len() - 1] == b'\r' {
        let (front, _) = line.split_at(line.len() - 1);
        return front;
    }
    line
}

/// How many bytes stand before the first line feed.
fn line_len(text: &[u8]) -> usize
    ensures within { result ≤ length text.now }
    ensures value { result ≡ position_or_len is_feed text.now }
{
    for (count, byte) in text.iter().enumerate() {
        if *byte == b'\n' {
            return count;
        }
    }
    text.len()
}

/// How many bytes stand before the first `#`.
fn code_len(line: &[u8]) -> usize
    ensures within { result ≤ length line.now }
    ensures value { result ≡ position_or_len is_hash line.now }
{
    for (count, byte) in line.iter().enumerate() {
        if *byte == b'#' {
            return count;
        }
    }
    line.len()
}
