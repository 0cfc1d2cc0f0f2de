ghost use Rattle.std.specs.Prelude.{◌≡◌, IfOk};
ghost use Rattle.plain_lower.specs.Blocks as spec;

use std::alloc::{AllocError, Global};
use word_program::Program;

/// The value number of the first result of each operation, by the number of the operation. It is one walk, where a
/// walk for each slot would take time that grows with the square of the program.
#[tactic(auto, using(crate::proofs::FirstValues::one_more, crate::proofs::FirstValues::value_next, crate::proofs::FirstValues::value_few, crate::proofs::FirstValues::none_before, crate::proofs::FirstValues::all_firsts))]
pub fn first_values(alloc: Global, program: &Program) -> Result<Vec<u32>, AllocError>
    ensures { IfOk result (λ firsts. firsts.items ≡ spec.firsts_of program.entry.now) }
{
    let ops = program.ops();
    let mut firsts = Vec::with_capacity(alloc, ops.len())?;
    let mut value = 0;
    for op in ops {
        firsts.push(value)?;
        value += op.targets.items().len() as u32;
    }
    Ok(firsts)
}
