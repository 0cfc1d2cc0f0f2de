ghost use Rattle.std.specs.Prelude.{◌≡◌, option_map};
ghost use Rattle.base.specs.Options.{guard};
ghost use Rattle.asm_tokens.specs.Tokens.{tokens};
ghost use Rattle.base.specs.Identifiers as identifiers;
ghost use Rattle.asm_text.specs.Items as spec;
ghost use Rattle.asm_text.specs.Views.{item_view};

use crate::instructions::instr_in;
use crate::parts::is_end;
use asm_operands::{after, is_spaced};
use asm_tokens::{comment_number, next, split_comment};
use base::{MAX_OPERATIONS, is_identifier};
use x86_instr::{Line, Owner};

/// What one line of a text is, whatever stands before it.
#[derive(Drop)]
pub enum Item<'a> {
    Blank,
    Syntax,
    Text,
    Global(&'a str),
    Label(&'a str),
    Code(Line),
}

#[tactic(auto, unfolding(crate::specs::Items::item_in))]
pub fn item_in(line: &[u8]) -> Option<Item<'_>>
    ensures { option_map item_view result ≡ spec.item_in line.now }
{
    let cut = split_comment(line);
    if is_end(cut.first) {
        return Some(Item::Blank);
    }
    full_item(cut.first, cut.rest)
}

#[tactic(auto, unfolding(crate::specs::Items::full_item))]
fn full_item<'a>(text: &'a [u8], comment: &[u8]) -> Option<Item<'a>>
    ensures { option_map item_view result ≡ spec.full_item (tokens text.now) comment.now }
{
    if is_syntax_line(text) {
        return Some(Item::Syntax);
    }
    if is_text_line(text) {
        return Some(Item::Text);
    }
    if let Some(name) = global_in(text) {
        return Some(Item::Global(name));
    }
    if let Some(name) = label_in(text) {
        return Some(Item::Label(name));
    }
    let line = line_in(text, comment)?;
    Some(Item::Code(line))
}

#[tactic(auto, unfolding(crate::specs::Items::line_in))]
fn line_in(text: &[u8], comment: &[u8]) -> Option<Line>
    ensures { result ≡ spec.line_in (tokens text.now) comment.now }
{
    let instr = instr_in(text)?;
    Some(Line {
        instr,
        owner: owner_in(comment),
    })
}

#[tactic(auto, unfolding(crate::specs::Items::owner_in))]
fn owner_in(comment: &[u8]) -> Option<Owner>
    ensures { result ≡ spec.owner_in comment.now }
{
    let number = comment_number(comment)?;
    if number >= MAX_OPERATIONS as u64 {
        return None;
    }
    Owner::new(number as u16)
}

#[tactic(auto, unfolding(crate::specs::Items::is_syntax_line))]
fn is_syntax_line(text: &[u8]) -> bool
    ensures { result ≡ spec.is_syntax_line (tokens text.now) }
{
    match syntax_rest(text) {
        Some(rest) => is_end(rest),
        None => false,
    }
}

#[tactic(auto, unfolding(crate::specs::Items::syntax_rest))]
fn syntax_rest(text: &[u8]) -> Option<&[u8]>
    ensures { option_map (λ rest. tokens rest.now) result ≡ spec.syntax_rest (tokens text.now) }
{
    after(
        after(text, b".intel_syntax".as_slice())?,
        b"noprefix".as_slice(),
    )
}

#[tactic(auto, unfolding(crate::specs::Items::is_text_line))]
fn is_text_line(text: &[u8]) -> bool
    ensures { result ≡ spec.is_text_line (tokens text.now) }
{
    match after(text, b".text".as_slice()) {
        Some(rest) => is_end(rest),
        None => false,
    }
}

/// The name of `.globl NAME`.
#[tactic(auto, unfolding(crate::specs::Items::global_in))]
fn global_in(text: &[u8]) -> Option<&str>
    ensures { option_map (λ name. name.now) result ≡ spec.global_in (tokens text.now) }
{
    let (name, rest) = name_at(after(text, b".globl".as_slice())?)?;
    if !is_end(rest) {
        return None;
    }
    Some(name)
}

/// The name of `NAME:`.
#[tactic(auto, unfolding(crate::specs::Items::label_in))]
fn label_in(text: &[u8]) -> Option<&str>
    ensures { option_map (λ name. name.now) result ≡ spec.label_in (tokens text.now) }
{
    let (name, rest) = name_at(text)?;
    if !is_colon(rest) {
        return None;
    }
    Some(name)
}

#[tactic(auto, unfolding(crate::specs::Items::is_colon))]
fn is_colon(text: &[u8]) -> bool
    ensures { result ≡ spec.is_colon (tokens text.now) }
{
    if is_spaced(text) {
        return false;
    }
    match after(text, b":".as_slice()) {
        Some(rest) => is_end(rest),
        None => false,
    }
}

#[tactic(auto, unfolding(crate::specs::Items::name_at))]
fn name_at(text: &[u8]) -> Option<(&str, &[u8])>
    ensures { option_map (λ p. (p.0.now, tokens p.1.now)) result ≡ spec.name_at (tokens text.now) }
{
    let first = next(text)?;
    Some((identifier(first.text)?, first.rest))
}

/// The text, where it is an identifier.
#[tactic(auto, using(crate::proofs::Identifiers::is_utf8_name))]
fn identifier(text: &[u8]) -> Option<&str>
    ensures { option_map (λ name. name.now) result ≡ guard (identifiers.is_identifier text.now) text.now }
{
    if !is_identifier(text) {
        return None;
    }
    match str::from_utf8(text) {
        Ok(name) => Some(name),
        Err(_) => None,
    }
}
