//! Laws of the definitions: functions that do nothing, whose contracts are the laws.

ghost use Rattle.std.specs.Prelude.{◌≡◌, ℕ, ◌<◌, false, List, length, map, slice_index, slice_index_or};
ghost use Rattle.word_program.specs.Accepted.{IsAccepted};
ghost use Rattle.word_program.specs.Program.{Source};
ghost use Rattle.word_program.specs.Values as values;
ghost use Rattle.terms.specs.Meaning.{Start};
ghost use Rattle.program_nodes.specs.Operands.{IsNodeOf};
ghost use Rattle.program_nodes.specs.Sources.{IsRunOn, source_made, source_outputs};

/// On inputs within their bounds the nodes of a program's values have the words that the program computes, and so have
/// those of its output words. Each stands in the table, and is at most 1 where the value is a bit.
pub fn source_nodes_have_values()
    ensures values { (program : Source) (inputs : List ℕ) (start : Start) (val : ℕ → ℕ) → IsAccepted program
        → IsRunOn program inputs start val
        → map val (source_made program).numbers ≡ values.values_of program inputs }
    ensures outputs { (program : Source) (inputs : List ℕ) (start : Start) (val : ℕ → ℕ) → IsAccepted program
        → IsRunOn program inputs start val → map val (source_outputs program) ≡ values.outputs program inputs }
    ensures nodes { (program : Source) → IsAccepted program → (n : ℕ) → n < length (values.targets_of program.ops)
        → IsNodeOf (source_made program).table (slice_index_or (values.bits_of program.params program.ops) n false)
        (slice_index (source_made program).numbers n) }
{}
