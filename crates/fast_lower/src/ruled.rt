//! Whether the lines of a listing keep the source rule, in one walk over the lines.
ghost use Rattle.std.specs.Prelude.{◌≡◌, ◌∷◌, ◌<◌, [], drop, length, MatchOption};
ghost use Rattle.std.specs.Option.{option_map_or};
ghost use Rattle.std.specs.Prelude.{slice_get, true};
ghost use Rattle.templates.specs.Table.{count_of};
ghost use Rattle.op_order.specs.Legal.{IsLegal};
ghost use Rattle.fast_lower.specs.Sources as spec;

use crate::sources::keeps_rule;
use op_order::Slot;
use templates::mnemonics;
use word_program::Program;
use x86_instr::{Instr, Line};

/// The instruction of an owned line, and the lines behind it.
#[derive(Drop)]
struct Next<'a> {
    instr: &'a Instr,
    behind: &'a [Line],
}

/// The first line that has an owner.
fn next_owned<'a>(lines: &'a [Line]) -> Option<Next<'a>>
    ensures { MatchOption result (spec.owned_instrs lines.entry.now ≡ [])
        (λ next. spec.owned_instrs lines.entry.now ≡ next.instr.now ∷ spec.owned_instrs next.behind.now) }
{
    for (place, line) in lines.iter().enumerate() {
        if let Some(_) = line.owner {
            return Some(Next {
                instr: &line.instr,
                behind: &lines[place + 1..],
            });
        }
    }
    None
}

/// The lines behind the first one that has an owner.
fn past_one<'a>(lines: &'a [Line]) -> &'a [Line]
    ensures { spec.owned_instrs result.now ≡ drop 1 (spec.owned_instrs lines.entry.now) }
{
    match next_owned(lines) {
        Some(next) => next.behind,
        None => lines,
    }
}

/// The lines behind so many that have an owner.
#[tactic(auto, using(crate::proofs::OwnedLines::drop_one_more))]
fn past_owned<'a>(lines: &'a [Line], count: usize) -> &'a [Line]
    ensures { spec.owned_instrs result.now ≡ drop count (spec.owned_instrs lines.entry.now) }
{
    let mut left = lines;
    for _ in 0..count {
        left = past_one(left);
    }
    left
}

/// Whether the first line that has an owner keeps the rule of a slot.
fn first_keeps(program: &Program, slot: Slot, lines: &[Line]) -> bool
    requires op { slot.op < length program.now.ops }
    requires template { slot.template < count_of program.now slot.op }
    ensures { result
        ≡ option_map_or (spec.keeps_rule program.now slot) (slice_get (spec.owned_instrs lines.now) 0) true }
{
    match next_owned(lines) {
        Some(next) => keeps_rule(program, slot, next.instr),
        None => true,
    }
}

/// Whether the owned lines keep the rule of the slots that own them.
pub fn keep_rule(program: &Program, slots: &[Slot], lines: &[Line]) -> bool
    requires { IsLegal program.now slots.now }
    ensures { result ≡ spec.keep_rule program.now slots.now (spec.owned_instrs lines.now) }
{
    let mut left = lines;
    for slot in slots {
        if !first_keeps(program, *slot, left) {
            return false;
        }
        left = past_owned(left, mnemonics(program, slot.op, slot.template).len());
    }
    true
}
