ghost use Rattle.std.specs.Prelude.{◌≡◌, ◌<◌, ◌%◌, length};
ghost use Rattle.templates.specs.Table.{count_of};
ghost use Rattle.op_order.specs.Legal.{IsLegal};
ghost use Rattle.op_order.specs.Plans.{op_at};
ghost use Rattle.mutations.specs.Mutations as spec;

use crate::mutation::{Draw, Mutation};
use op_order::{Plan, window};
use templates::count;
use word_program::Program;

/// The place in the window of a slot that a word draws.
fn place_drawn(program: &Program, plan: &Plan, slot: u16, word: u32) -> u16
    requires legal { IsLegal program.now plan.now.slots }
    requires slot { slot < length plan.now.slots }
    ensures { result ≡ spec.place_drawn program.now plan.now.slots slot word }
{
    let (low, high) = window(program, plan, slot);
    let places = (high - low) as u32 + 1;
    low + (word % places) as u16
}

/// The template of a slot's operation that a word draws.
fn template_drawn(program: &Program, plan: &Plan, slot: u16, word: u32) -> u8
    requires legal { IsLegal program.now plan.now.slots }
    requires slot { slot < length plan.now.slots }
    ensures { result ≡ word % count_of program.now (op_at plan.now.slots slot) }
{
    let op = plan.slots()[slot as usize].op;
    (word % count(program, op) as u32) as u8
}

/// The mutation of this kind, of five, and of this slot, with the place or the template that a word draws.
#[tactic(auto, unfolding(crate::specs::Mutations::Fits))]
fn mutation_of(program: &Program, plan: &Plan, kind: u32, slot: u16, word: u32) -> Mutation
    requires legal { IsLegal program.now plan.now.slots }
    requires slot { slot < length plan.now.slots }
    ensures mutation { result ≡ spec.mutation_of program.now plan.now.slots kind slot word }
    ensures fits { spec.Fits program.now plan.now.slots result }
{
    match kind {
        0 => Mutation::Move {
            slot,
            to: place_drawn(program, plan, slot, word),
        },
        1 => Mutation::Template {
            slot,
            number: template_drawn(program, plan, slot, word),
        },
        2 => Mutation::Swap { slot },
        3 => Mutation::Load { slot },
        _ => Mutation::Chain {
            slot,
            number: 1 + (word % 2) as u8,
        },
    }
}

/// How many kinds of mutation are drawn.
fn kinds_of(draw: Draw) -> u32
    ensures kinds { result ≡ spec.kinds_of draw }
    ensures some { 0 < result }
{
    match draw {
        Draw::One => 4,
        Draw::Two => 5,
    }
}

/// The slot that a word draws: a legal plan has a slot for each operation, and a program has an operation.
#[tactic(auto, using(crate::proofs::FitsDrawn::slot_is, crate::proofs::FitsDrawn::slot_there))]
fn slot_drawn(program: &Program, plan: &Plan, word: u32) -> u16
    requires { IsLegal program.now plan.now.slots }
    ensures slot { result ≡ word % length plan.now.slots }
    ensures there { result < length plan.now.slots }
{
    (word % program.ops().len() as u32) as u16
}

/// The mutation of a legal plan that four words draw: the first one its kind, the second its slot, and the third the
/// place in the slot's window to which it moves, or its template, or that of a chain. It takes no memory, and time
/// that grows with the numbers of slots and operations.
#[tactic(auto, unfolding(crate::specs::Mutations::drawn))]
pub fn drawn(program: &Program, plan: &Plan, words: [u32; 4], draw: Draw) -> Mutation
    requires { IsLegal program.now plan.now.slots }
    ensures mutation { result ≡ spec.drawn program.now plan.now.slots words draw }
    ensures fits { spec.Fits program.now plan.now.slots result }
{
    let slot = slot_drawn(program, plan, words[1]);
    mutation_of(program, plan, words[0] % kinds_of(draw), slot, words[2])
}
