//! Whether a listing realises a plan: the owned lines of the listing are compared with those of the slots, once, from
//! the front.
ghost use Rattle.std.specs.Prelude.{◌≡◌, ◌≤◌, [], ◌∷◌, length, MatchOption, MatchResult};
ghost use Rattle.op_order.specs.Legal.{IsLegal};
ghost use Rattle.op_order.specs.Realises.{DiffersFirst, Realises, plan_lines};
ghost use Rattle.equiv_validator.specs.Owned.{IsFirstOff, Lacks, Leaves, lines_by, owned_in};

use op_order::{Plan, Slot};
use templates::mnemonics;
use word_program::Program;
use x86_instr::{Line, Listing, Mnemonic, mnemonic_of};

/// An owned line, and the lines behind it.
#[derive(Drop)]
struct Next<'a> {
    op: u16,
    mnemonic: Mnemonic,
    behind: &'a [Line],
}

/// The first line that has an owner.
fn next_owned<'a>(lines: &'a [Line]) -> Option<Next<'a>>
    ensures { MatchOption result (owned_in lines.entry.now ≡ [])
        (λ next. Leaves lines.entry.now ((next.op, next.mnemonic) ∷ []) next.behind.now) }
{
    for (place, line) in lines.iter().enumerate() {
        if let Some(owner) = line.owner {
            return Some(Next {
                op: owner.op(),
                mnemonic: mnemonic_of(&line.instr),
                behind: &lines[place + 1..],
            });
        }
    }
    None
}

/// The lines behind the first owned one, where that one has this owner and this mnemonic.
fn past_line<'a>(lines: &'a [Line], op: u16, mnemonic: Mnemonic) -> Option<&'a [Line]>
    ensures { MatchOption result (Lacks lines.entry.now ((op, mnemonic) ∷ []))
        (λ left. Leaves lines.entry.now ((op, mnemonic) ∷ []) left.now) }
{
    let Some(next) = next_owned(lines) else {
        return None;
    };
    if next.op == op && next.mnemonic == mnemonic {
        return Some(next.behind);
    }
    None
}

/// The lines behind the first owned ones, where these have this owner and these mnemonics.
fn past_lines<'a>(lines: &'a [Line], op: u16, names: &[Mnemonic]) -> Option<&'a [Line]>
    ensures { MatchOption result (Lacks lines.entry.now (lines_by op names.entry.now))
        (λ left. Leaves lines.entry.now (lines_by op names.entry.now) left.now) }
{
    let mut left = lines;
    for name in names {
        let Some(behind) = past_line(left, op, *name) else {
            return None;
        };
        left = behind;
    }
    Some(left)
}

/// The lines behind those of the slots, or the first slot that has other lines.
fn past_slots<'a>(program: &Program, slots: &[Slot], lines: &'a [Line]) -> Result<&'a [Line], u16>
    requires few { length slots.now ≤ 65535 }
    requires legal { IsLegal program.now slots.now }
    ensures { MatchResult result
        (λ left. Leaves lines.entry.now (plan_lines program.entry.now slots.entry.now) left.now)
        (IsFirstOff program.entry.now slots.entry.now lines.entry.now) }
{
    let mut left = lines;
    let mut number = 0;
    for slot in slots {
        let names = mnemonics(program, slot.op, slot.template);
        let Some(behind) = past_lines(left, slot.op, names) else {
            return Err(number);
        };
        left = behind;
        number += 1;
    }
    Ok(left)
}

/// The first slot of which the listing has other lines, or the number of slots, where it has those of all slots and
/// more; None exactly where it realises the plan. It takes no memory, and goes once over the lines.
pub fn first_difference(program: &Program, plan: &Plan, listing: &Listing) -> Option<u16>
    requires { IsLegal program.now plan.now.slots }
    ensures { MatchOption result (Realises program.now plan.now.slots listing.now)
        (DiffersFirst program.now plan.now.slots listing.now) }
{
    let slots = plan.slots();
    match past_slots(program, slots, listing.lines()) {
        Err(number) => Some(number),
        Ok(left) => match next_owned(left) {
            Some(_) => Some(slots.len() as u16),
            None => None,
        },
    }
}
