//! Laws of the definitions: functions that do nothing, whose contracts are the laws.

ghost use Rattle.std.specs.Prelude.{◌≡◌, ℕ, ◌<◌, ◌≤◌, Some, None, false, List, length};
ghost use Rattle.word_program.specs.Program.{Source};
ghost use Rattle.op_order.specs.declared.slot.Slot.{Slot};
ghost use Rattle.register_spill.specs.Uses.{IsFirstRead, next_use, reads_at, uses_of};

/// The next use of a value is the first slot of the plan, from the one that is asked for on, whose operation reads it,
/// and there is none only where no such slot reads it.
pub fn next_use_is_the_first_slot_that_reads()
    ensures found { (program : Source) (slots : List Slot) (value now at : ℕ)
        → next_use (uses_of program slots value) now ≡ Some at → IsFirstRead program slots value now at }
    ensures none { (program : Source) (slots : List Slot) (value now : ℕ)
        → next_use (uses_of program slots value) now ≡ None
        → (at : ℕ) → now ≤ at → at < length slots → reads_at program slots value at ≡ false }
{}
