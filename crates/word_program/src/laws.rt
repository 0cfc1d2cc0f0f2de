//! Laws of the definitions: functions that do nothing, whose contracts are the laws.

ghost use Rattle.std.specs.Prelude.{◌≡◌, ℕ, ◌≤◌, List, length, true};
ghost use Rattle.word_operations.specs.Laws.{AreWords};
ghost use Rattle.word_program.specs.declared.operation.Operand.{Operand};
ghost use Rattle.word_program.specs.Accepted.{IsAccepted, IsOperand};
ghost use Rattle.word_program.specs.Program.{Source};
ghost use Rattle.word_program.specs.Values.{AreWithin, input_bounds, is_bit, operand_word, targets_of, values_of};

/// On inputs within their bounds an operand of a program that is a bit stands for 0 or 1.
pub fn bits_are_zero_or_one()
    ensures { (program : Source) (inputs : List ℕ) → IsAccepted program
        → AreWithin inputs (input_bounds program.params) → (operand : Operand)
        → IsOperand program.params (length (targets_of program.ops)) operand → is_bit program operand ≡ true
        → operand_word program.params inputs (values_of program inputs) operand ≤ 1 }
{}

/// On inputs within their bounds each value of a program is a word.
pub fn values_are_words()
    ensures { (program : Source) (inputs : List ℕ) → IsAccepted program
        → AreWithin inputs (input_bounds program.params)
        → AreWords (values_of program inputs) }
{}
