ghost use Rattle.std.specs.Prelude.{◌≡◌, ◌++◌, ◌∷◌, Bool, map, option_to_list, slice_index_or, OnOk, false};
ghost use Rattle.word_program.specs.Values as values;

use crate::lookup::is_bit_by;
use crate::operation::{Op, Operand};
use crate::parameter::Param;
use std::alloc::AllocError;
use word_operations::{first_bit, second_bit};

/// Whether the operand at a place of an operation is a bit. Where there is no operand, it is none.
fn arg_bit(params: &[Param], bits: &[bool], args: &[Operand], place: usize) -> bool
    ensures { result ≡ slice_index_or (map (values.is_bit_by params.now bits.now) args.now) place false }
{
    match args.get(place) {
        Some(operand) => is_bit_by(params, bits, *operand),
        None => false,
    }
}

/// Puts behind the bits of the values so far whether the results of an operation are bits.
pub fn push_bits(bits: &mut Vec<bool>, params: &[Param], op: &Op) -> Result<(), AllocError>
    ensures { OnOk result (bits.new.items ≡ bits.old.items
        ++ values.op_bits params.entry.now bits.old.items op.entry.now) }
{
    let a = arg_bit(params, bits.as_slice(), op.args.items(), 0);
    let b = arg_bit(params, bits.as_slice(), op.args.items(), 1);
    let c = arg_bit(params, bits.as_slice(), op.args.items(), 2);
    bits.push(first_bit(op.kind, a, b, c))?;
    if let Some(bit) = second_bit(op.kind, a, b, c) {
        bits.push(bit)?;
    }
    Ok(())
}
