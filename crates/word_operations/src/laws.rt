//! Laws of the definitions: functions that do nothing, whose contracts are the laws.

ghost use Rattle.std.specs.Prelude.{ℕ, Bool, [], ◌∷◌};
ghost use Rattle.word_operations.specs.declared.kind.Kind.{Kind};
ghost use Rattle.word_operations.specs.Laws.{AreBits, AreOperands, AreWords};
ghost use Rattle.word_operations.specs.Operations.{bits_on, results_on};

/// The results of every operation on words are words, whatever its shift count.
pub fn results_are_words()
    ensures { (kind : Kind) (a b c : ℕ) → AreWords (a ∷ b ∷ c ∷ []) → AreWords (results_on kind a b c) }
{}

/// Each result that the table tells to be a bit is 0 or 1, where the operands are that it is told of.
pub fn bits_are_zero_or_one()
    ensures { (kind : Kind) (p q r : Bool) (a b c : ℕ) → AreOperands kind p q r a b c
        → AreBits (bits_on kind p q r) (results_on kind a b c) }
{}
