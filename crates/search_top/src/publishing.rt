//! What a search by lanes publishes: the texts of the listing and of the journal, and the summary.
ghost use Rattle.std.specs.Prelude.{◌≡◌, [], ◌∷◌, ◌++◌, IfOk, OnOk, decimal, string_bytes};
ghost use Rattle.word_program.specs.Accepted.{IsAccepted};
ghost use Rattle.asm_text.specs.Assembly.{text_of};
ghost use Rattle.mutations.specs.declared.mutation.Draw.TheVariants.{Two};
ghost use Rattle.journal_rules.specs.Numbers.{cost_at};
ghost use Rattle.journal_rules.specs.Legal.{IsWhole};
ghost use Rattle.journal_text.specs.Lines.{full_lines};
ghost use Rattle.journal_text.specs.Stands.{Stands};
ghost use Rattle.journal_text.specs.Text as journal_text;
ghost use Rattle.search_top.specs.Lanes as spec;
ghost use Rattle.search_top.specs.Search.{IsFit};

use equiv_validator::Checked;
use incumbent_board::Board;
use itoa::Buffer;
use journal_rules::Entry;
use std::alloc::{AllocError, Global};

/// What a search by lanes publishes.
#[derive(Drop)]
pub struct Published {
    /// The text of the listing.
    pub asm: Vec<u8>,
    /// The text of the journal.
    pub journal: Vec<u8>,
    /// The lines that are said.
    pub summary: String,
}

/// What is published of a board whose lanes have made all their turns, of a program whose file has this digest. The one
/// error is want of memory.
pub fn publish(alloc: Global, board: Board, digest: [u8; 32]) -> Result<Published, AllocError>
    requires draw { board.setup.draw ≡ Two }
    requires whole { IsWhole board.setup board.entries }
    ensures { IfOk result (λ p. spec.IsPublished board.setup digest
        (record { texts = p.asm.items ∷ p.journal.items ∷ []; word = string_bytes p.summary })) }
{
    let _ = board.entries();
    let asm = asm_of(alloc, board.incumbent())?;
    let summary = summary_of(alloc, &board)?;
    let journal = journal_of(alloc, board, digest)?;
    Ok(Published {
        asm,
        journal,
        summary,
    })
}

/// The text of a listing that was checked, which is fit to be published.
fn asm_of(alloc: Global, checked: &Checked) -> Result<Vec<u8>, AllocError>
    ensures text { IfOk result (λ text. text.items ≡ text_of checked.now.listing) }
    ensures fit { IfOk result (λ text. IsFit checked.now.program checked.now.listing) }
{
    let _ = checked.program().params();
    let text = asm_text::write(alloc, checked.listing())?;
    Ok(text)
}

/// The text of a board's journal, which stands for it.
fn journal_of(alloc: Global, board: Board, digest: [u8; 32]) -> Result<Vec<u8>, AllocError>
    requires { board.setup.draw ≡ Two }
    ensures text { IfOk result (λ text. text.items
        ≡ journal_text.text_of (spec.journal_of board.setup digest board.entries)) }
    ensures stands { IfOk result (λ text. Stands (full_lines text.items)
        (spec.journal_of board.setup digest board.entries)) }
{
    let _ = board.entries();
    let _ = board.incumbent().program().params();
    let journal = board.into_journal(digest);
    journal_text::write(alloc, &journal)
}

/// The lines that are said of a board.
#[tactic(auto, unfolding(crate::specs::Lanes::summary_of))]
fn summary_of(alloc: Global, board: &Board) -> Result<String, AllocError>
    ensures { IfOk result (λ text. string_bytes text ≡ spec.summary_of board.now.setup board.now.entries) }
{
    let mut text = String::new(alloc);
    push_lanes(
        &mut text,
        board.lanes() as u64,
        board.turns() as u64,
        board.entries().len() as u64,
    )?;
    push_opening(&mut text, board.opening_cost())?;
    push_best(&mut text, board)?;
    push_plain(&mut text, board.entries())?;
    Ok(text)
}

#[tactic(auto, unfolding(crate::specs::Lanes::lanes_line))]
fn push_lanes(text: &mut String, lanes: u64, turns: u64, entries: u64) -> Result<(), AllocError>
    ensures { OnOk result (string_bytes text.new ≡ string_bytes text.old ++ spec.lanes_line lanes turns entries) }
{
    push_number(text, "lanes ", lanes)?;
    push_number(text, " turns ", turns)?;
    push_entries(text, entries)
}

#[tactic(auto, unfolding(crate::specs::Lanes::entries_text))]
fn push_entries(text: &mut String, entries: u64) -> Result<(), AllocError>
    ensures { OnOk result (string_bytes text.new ≡ string_bytes text.old ++ spec.entries_text entries) }
{
    push_number(text, " entries ", entries)?;
    text.push_str("\n")
}

#[tactic(auto, unfolding(crate::specs::Lanes::opening_line))]
fn push_opening(text: &mut String, cost: u64) -> Result<(), AllocError>
    ensures { OnOk result (string_bytes text.new ≡ string_bytes text.old ++ spec.opening_line cost) }
{
    push_number(text, "opening ", cost)?;
    text.push_str("\n")
}

/// The line of the incumbent.
fn push_best(text: &mut String, board: &Board) -> Result<(), AllocError>
    ensures { OnOk result (string_bytes text.new ≡ string_bytes text.old
        ++ spec.best_line (spec.best_of board.now.setup board.now.entries)
        (cost_at board.now.setup board.now.entries (spec.best_of board.now.setup board.now.entries))) }
{
    push_best_line(text, board.best(), board.incumbent().cost())
}

#[tactic(auto, unfolding(crate::specs::Lanes::best_line))]
fn push_best_line(text: &mut String, best: u32, cost: u64) -> Result<(), AllocError>
    ensures { OnOk result (string_bytes text.new ≡ string_bytes text.old ++ spec.best_line best cost) }
{
    push_number(text, "best ", best as u64)?;
    push_number(text, " cost ", cost)?;
    text.push_str("\n")
}

#[tactic(auto, unfolding(crate::specs::Lanes::plain_line))]
fn push_plain(text: &mut String, entries: &[Entry]) -> Result<(), AllocError>
    ensures { OnOk result (string_bytes text.new ≡ string_bytes text.old ++ spec.plain_line entries.now) }
{
    push_number(text, "plain ", plain_in(entries))?;
    text.push_str("\n")
}

/// How many entries have the mark.
fn plain_in(entries: &[Entry]) -> u64
    ensures { result ≡ spec.plain_in entries.now }
{
    entries.iter().filter(|e| e.plain).count() as u64
}

/// A word and a number behind it.
pub fn push_number(text: &mut String, front: &str, number: u64) -> Result<(), AllocError>
    ensures { OnOk result (string_bytes text.new ≡ string_bytes text.old ++ (front.now ++ decimal number)) }
{
    text.push_str(front)?;
    text.push_str(Buffer::new().format(number))
}
