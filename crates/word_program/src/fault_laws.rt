//! Laws of the first fault: functions that do nothing, whose contracts are the laws.

ghost use Rattle.std.specs.Prelude.{◌≡◌, ℕ, ◌↔◌, Some, None};
ghost use Rattle.word_text.specs.declared.fault.Place.{Place};
ghost use Rattle.word_text.specs.declared.parts.RawProgram.{RawProgram};
ghost use Rattle.word_program.specs.Failing.{Fails, IsFirst};
ghost use Rattle.word_program.specs.Rules.{first_fault};

/// A fault is the first fault of a program's parts exactly where its rule fails at its place, and no rule that
/// fails comes before it in the order of the rules and places.
pub fn first_fault_is_first()
    ensures { (parts : RawProgram) (code : ℕ) (place : Place)
        → (first_fault parts ≡ Some (code, place)) ↔ IsFirst (Fails parts) (code, place) }
{}

/// The parts of a program have no fault exactly where no rule fails anywhere.
pub fn without_fault_nothing_fails()
    ensures { (parts : RawProgram)
        → (first_fault parts ≡ None) ↔ ((code : ℕ) (place : Place) → Fails parts code place → ⊥) }
{}
