ghost use Rattle.std.specs.Prelude.{◌≡◌};
ghost use Rattle.x86_meaning.specs.Runs.{SameAddresses, run_from};
ghost use Rattle.x86_meaning.specs.Outcomes.{outcome_of};

use crate::execution::step;
use crate::state::State;
use x86_instr::Listing;

/// A run that did not reach `ret`: the line, counted from 1, whose instruction is stuck.
#[derive(Clone, Copy)]
pub struct Stuck {
    pub line: u32,
}

/// Runs a listing from its first line to `ret`. The error comes exactly where an instruction is stuck, and
/// the state is then the one before it. The memory has cells at the same addresses as before. It takes no memory.
pub fn run(listing: &Listing, state: &mut State) -> Result<(), Stuck>
    ensures outcome { outcome_of result state.new ≡ run_from 1 listing.now.lines state.old }
    ensures addresses { SameAddresses state.old state.new }
{
    let lines = listing.lines();
    for (number, line) in lines.iter().enumerate() {
        if line.instr.is_ret() {
            return Ok(());
        }
        if !step(state, &line.instr) {
            return Err(Stuck {
                line: number as u32 + 1,
            });
        }
    }
    Err(Stuck {
        line: lines.len() as u32 + 1,
    })
}
