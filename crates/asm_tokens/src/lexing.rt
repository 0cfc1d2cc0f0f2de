ghost use Rattle.std.specs.Prelude.{◌≡◌, ◌≤◌, ◌∷◌, [], length, MatchOption};
ghost use Rattle.std.specs.List.{prefix_len};
ghost use Rattle.asm_tokens.specs.Tokens.{is_blank, is_word_byte, tokens, token, token_len};

/// The first token of a text: whether a blank stands before it, its bytes, and what follows it.
#[derive(Clone, Copy)]
pub struct Lexeme<'a> {
    pub spaced: bool,
    pub text: &'a [u8],
    pub rest: &'a [u8],
}

/// The first token of a text, None exactly where there is none.
#[tactic(auto, using(crate::proofs::FirstToken::no_token, crate::proofs::FirstToken::first_token))]
pub fn next(text: &[u8]) -> Option<Lexeme<'_>>
    ensures { MatchOption result (tokens text.now ≡ [])
        (λ r. tokens text.now ≡ token r.spaced r.text.now ∷ tokens r.rest.now) }
{
    let blanks = blank_len(text);
    let (_, rest) = text.split_at(blanks);
    if rest.is_empty() {
        return None;
    }
    let (first, tail) = rest.split_at(token_len(rest));
    Some(Lexeme {
        spaced: blanks > 0,
        text: first,
        rest: tail,
    })
}

fn blank_len(text: &[u8]) -> usize
    ensures within { result ≤ length text.now }
    ensures value { result ≡ prefix_len is_blank text.now }
{
    for (count, byte) in text.iter().enumerate() {
        if !is_blank(*byte) {
            return count;
        }
    }
    text.len()
}

/// The length of the token that a text begins with, which is no blank.
fn token_len(text: &[u8]) -> usize
    ensures within { result ≤ length text.now }
    ensures value { result ≡ token_len text.now }
{
    let word = word_len(text);
    if word == 0 && !text.is_empty() {
        return 1;
    }
    word
}

fn word_len(text: &[u8]) -> usize
    ensures within { result ≤ length text.now }
    ensures value { result ≡ prefix_len is_word_byte text.now }
{
    for (count, byte) in text.iter().enumerate() {
        if !is_word_byte(*byte) {
            return count;
        }
    }
    text.len()
}

fn is_blank(byte: u8) -> bool
    ensures { result ≡ is_blank byte }
{
    byte == b' ' || byte == b'\t'
}

fn is_word_byte(byte: u8) -> bool
    ensures { result ≡ is_word_byte byte }
{
    byte.is_ascii_alphanumeric() || byte == b'_' || byte == b'.'
}
