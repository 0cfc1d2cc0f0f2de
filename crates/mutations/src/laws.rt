//! Laws of the definitions: functions that do nothing, whose contracts are the laws.

ghost use Rattle.std.specs.Prelude.{◌≡◌, ℕ, List, ◌∷◌, []};
ghost use Rattle.std.specs.Option.{option_map_or};
ghost use Rattle.word_program.specs.Accepted.{IsAccepted};
ghost use Rattle.word_program.specs.Program.{Source};
ghost use Rattle.op_order.specs.declared.slot.Slot.{Slot};
ghost use Rattle.op_order.specs.Legal.{IsLegal};
ghost use Rattle.mutations.specs.Chains.{chain_of, next_of};
ghost use Rattle.mutations.specs.declared.mutation.Draw.{Draw};
ghost use Rattle.mutations.specs.declared.mutation.Mutation.{Mutation};
ghost use Rattle.mutations.specs.Mutations.{Fits, applied, drawn};

/// The mutation that words draw for a legal plan fits it, and a mutation that fits a legal plan leaves a legal plan.
/// So a drawn mutation leaves a legal plan legal.
pub fn drawn_mutations_keep_plans_legal()
    ensures fits { (program : Source) (slots : List Slot) (words : List ℕ) (draw : Draw)
        → IsAccepted program → IsLegal program slots → Fits program slots (drawn program slots words draw) }
    ensures legal { (program : Source) (slots : List Slot) (mutation : Mutation) → IsLegal program slots
        → Fits program slots mutation → IsLegal program (applied program mutation slots) }
    ensures drawn { (program : Source) (slots : List Slot) (words : List ℕ) (draw : Draw)
        → IsAccepted program → IsLegal program slots
        → IsLegal program (applied program (drawn program slots words draw) slots) }
{}

/// The chain of an operation is the operation, and then the chain of the first later `addcarryx` that takes its carry,
/// where there is one.
pub fn chains_go_on()
    ensures { (program : Source) (op : ℕ)
        → chain_of program op ≡ op ∷ option_map_or (chain_of program) (next_of program op) [] }
{}
