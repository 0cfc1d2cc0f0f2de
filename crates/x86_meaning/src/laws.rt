//! Laws of instructions and of stuck runs: functions that do nothing, whose contracts are the laws.

ghost use Rattle.std.specs.Prelude.{◌≡◌, ℕ, ◌+◌, ◌-◌, ◌^◌, ◌≤◌, ◌↔◌, true, false, List, FitsSigned};
ghost use Rattle.std.specs.Int.{w64};
ghost use Rattle.x86_instr.specs.declared.line.Line.{Line};
ghost use Rattle.x86_meaning.specs.Laws.{IsStuckAt, signed_difference, signed_sum};
ghost use Rattle.x86_meaning.specs.declared.state.State.{State};
ghost use Rattle.x86_meaning.specs.Machine.{IsWord, overflows, biased};
ghost use Rattle.x86_instr.specs.Listings.{ends_at_ret};
ghost use Rattle.x86_meaning.specs.Runs.{run_from, Stuck};

/// The overflow flag of a sum and of a difference is clear exactly where the exact result of the
/// words, read with their signs, fits 64 bits with its sign.
pub fn overflow_is_signed()
    ensures sum { (d b carry : ℕ) → IsWord d → IsWord b → carry ≤ 1
        → (overflows (biased d + biased b + carry) ≡ false) ↔ FitsSigned w64 (signed_sum d b carry) }
    ensures difference { (d b borrow : ℕ) → IsWord d → IsWord b → borrow ≤ 1
        → (overflows (biased d + 2 ^ 64 - (biased b + borrow)) ≡ false)
        ↔ FitsSigned w64 (signed_difference d b borrow) }
{}

/// The line at which a listing's run is stuck is one of its lines, and that instruction is stuck in the state
/// before it.
pub fn stuck_line_is_stuck()
    ensures { (lines : List Line) (s : State) → ends_at_ret lines ≡ true → (number : ℕ) (t : State)
        → run_from 1 lines s ≡ Stuck number t → IsStuckAt lines number t }
{}
