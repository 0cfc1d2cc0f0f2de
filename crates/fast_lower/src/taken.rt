//! The operands of an operation in the order in which a slot takes them.
ghost use Rattle.std.specs.Prelude.{◌≡◌};
ghost use Rattle.mutations.specs.Mutations as mutations;
ghost use Rattle.plain_lower.specs.Blocks as blocks;
ghost use Rattle.fast_lower.specs.Taken as spec;

use op_order::Slot;
use word_program::{Kind, Op, Operand};

/// Whether the two words that an operation is of, beside a carry, may change places.
fn commutes(kind: Kind) -> bool
    ensures { result ≡ mutations.commutes kind }
{
    matches!(
        kind,
        Kind::AddCarry | Kind::MulX | Kind::Add | Kind::Mul | Kind::And | Kind::Or | Kind::Xor
    )
}

fn exchanges(slot: Slot, op: &Op) -> bool
    ensures { result ≡ spec.exchanges slot op.now }
{
    slot.swap && commutes(op.kind)
}

/// The place of the operand that is taken at a place.
fn taken_place(exchange: bool, count: usize, place: usize) -> usize
    ensures { result ≡ spec.taken_place exchange count place }
{
    if exchange && place == count.saturating_sub(1) {
        return count.saturating_sub(2);
    }
    if exchange && place == count.saturating_sub(2) {
        return count.saturating_sub(1);
    }
    place
}

fn arg_at(op: &Op, place: usize) -> Operand
    ensures { result ≡ blocks.arg_at op.now place }
{
    op.args
        .items()
        .get(place)
        .copied()
        .unwrap_or(Operand::Literal(0))
}

/// The operand that a slot takes at a place.
pub fn taken_arg(slot: Slot, op: &Op, place: usize) -> Operand
    ensures { result ≡ spec.taken_arg slot op.now place }
{
    let count = op.args.items().len();
    arg_at(op, taken_place(exchanges(slot, op), count, place))
}

/// The operand that a slot takes last.
pub fn last_taken(slot: Slot, op: &Op) -> Operand
    ensures { result ≡ spec.last_taken slot op.now }
{
    taken_arg(slot, op, op.args.items().len().saturating_sub(1))
}
