//! Laws of the definitions: functions that do nothing, whose contracts are the laws.

ghost use Rattle.std.specs.Prelude.{◌≡◌, ℕ, ◌<◌, ◌↔◌, true, length, slice_index_or, []};
ghost use Rattle.std.specs.List.{list_any};
ghost use Rattle.word_program.specs.Program.{Source};
ghost use Rattle.word_program.specs.Accepted.{IsAccepted};
ghost use Rattle.dependency_graph.specs.Needs.{defines, graph_of, has, is_needed, needs_of, users_of};

/// The graph of a program has for each operation its needs and its users.
pub fn graph_has_needs_and_users()
    ensures needs { (program : Source) (op : ℕ) → op < length program.ops
        → slice_index_or (graph_of program).needs op [] ≡ needs_of program op }
    ensures users { (program : Source) (op : ℕ) → op < length program.ops
        → slice_index_or (graph_of program).users op [] ≡ users_of program op }
    ensures count { (program : Source) → (length (graph_of program).needs ≡ length program.ops)
        × (length (graph_of program).users ≡ length program.ops) }
{}

/// The operations that an operation needs are exactly those of which `is_needed` says so.
pub fn needs_are_the_needed_ops()
    ensures { (program : Source) (op other : ℕ) → has other (needs_of program op) ≡ is_needed program op other }
{}

/// An operation has another one among its needs exactly where the other one has it among its users.
pub fn needs_and_users_are_converse()
    ensures { (program : Source) (op other : ℕ) → has other (needs_of program op) ≡ has op (users_of program other) }
{}

/// The operations that an operation needs stand before it.
pub fn needed_ops_are_earlier()
    ensures { (program : Source) → IsAccepted program → (op other : ℕ) → is_needed program op other ≡ true
        → other < op }
{}

/// A value is a result of one operation.
pub fn values_are_defined_once()
    ensures { (program : Source) (op other value : ℕ) → defines program op value ≡ true
        → defines program other value ≡ true → op ≡ other }
{}
