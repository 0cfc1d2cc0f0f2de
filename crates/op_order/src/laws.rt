//! Laws of the definitions: functions that do nothing, whose contracts are the laws.

ghost use Rattle.std.specs.Prelude.{◌≡◌, ℕ, ◌<◌, ◌↔◌, true, List, length};
ghost use Rattle.word_program.specs.Program.{Source};
ghost use Rattle.x86_instr.specs.Listings.{NamedLines};
ghost use Rattle.dependency_graph.specs.Needs.{is_needed};
ghost use Rattle.op_order.specs.declared.slot.Slot.{Slot};
ghost use Rattle.op_order.specs.Plans.{with_slot_moved, op_at};
ghost use Rattle.op_order.specs.Legal.{IsLegal};
ghost use Rattle.op_order.specs.Windows.{IsInWindow};
ghost use Rattle.op_order.specs.Realises.{DiffersFirst, Realises};

/// A slot of a legal plan may move to each place of its window, and to no other: only then is the plan still legal.
pub fn slots_move_within_their_windows()
    ensures { (program : Source) (slots : List Slot) → IsLegal program slots → (from to : ℕ) → from < length slots
        → to < length slots → IsLegal program (with_slot_moved slots from to) ↔ IsInWindow program slots from to }
{}

/// A legal plan has as many slots as the program has operations, and each operation has a slot.
pub fn each_operation_has_a_slot()
    ensures count { (program : Source) (slots : List Slot) → IsLegal program slots → length slots ≡ length program.ops }
    ensures all { (program : Source) (slots : List Slot) → IsLegal program slots → (op : ℕ) → op < length program.ops
        → (at : ℕ) × (at < length slots) × (op_at slots at ≡ op) }
{}

/// In a legal plan each operation that a slot's operation needs has an earlier slot.
pub fn needed_operations_stand_before()
    ensures { (program : Source) (slots : List Slot) → IsLegal program slots → (at op : ℕ) → at < length slots
        → is_needed program (op_at slots at) op ≡ true → (earlier : ℕ) × (earlier < at) × (op_at slots earlier ≡ op) }
{}

/// There is one slot at which a listing first differs from a plan that it does not realise, at most one from any plan,
/// and none where it realises the plan.
pub fn listings_differ_first_at_one_slot()
    ensures once { (program : Source) (slots : List Slot) (listing : NamedLines) (n m : ℕ)
        → DiffersFirst program slots listing n → DiffersFirst program slots listing m → n ≡ m }
    ensures differs { (program : Source) (slots : List Slot) (listing : NamedLines) (n : ℕ)
        → DiffersFirst program slots listing n → Realises program slots listing → ⊥ }
    ensures there { (program : Source) (slots : List Slot) (listing : NamedLines)
        → (Realises program slots listing → ⊥) → (n : ℕ) × DiffersFirst program slots listing n }
{}
