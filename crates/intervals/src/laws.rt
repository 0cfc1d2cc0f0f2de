//! Laws of the definitions: functions that do nothing, whose contracts are the laws.

ghost use Rattle.std.specs.Prelude.{ℕ, Bool, ◌<◌, ◌*◌, ◌/◌, ◌%◌, ◌^◌, bit_and, bit_or, bit_xor, if◌then◌else◌};
ghost use Rattle.intervals.specs.declared.interval.Interval.{Interval};
ghost use Rattle.intervals.specs.Intervals.{ones, product_low, product_high, bits_and, bits_or, bits_xor};
ghost use Rattle.intervals.specs.Intervals.{shifted_right, choice};
ghost use Rattle.intervals.specs.Soundness.{AreLeastOnes, Holds};

/// The number of ones that intervals give to a word is the least that is at least the word.
pub fn ones_are_least()
    ensures { (word : ℕ) → word < 2 ^ 64 → AreLeastOnes word (ones word) }
{}

/// What is computed from two words lies in the interval that is computed from two intervals that hold them.
pub fn results_lie_in_intervals()
    ensures product_low { (i j : Interval) (a b : ℕ) → Holds i a → Holds j b
        → Holds (product_low i j) (a * b % 2 ^ 64) }
    ensures product_high { (i j : Interval) (a b : ℕ) → Holds i a → Holds j b
        → Holds (product_high i j) (a * b / 2 ^ 64) }
    ensures bits_and { (i j : Interval) (a b : ℕ) → Holds i a → Holds j b → Holds (bits_and i j) (bit_and a b) }
    ensures bits_or { (i j : Interval) (a b : ℕ) → Holds i a → Holds j b → Holds (bits_or i j) (bit_or a b) }
    ensures bits_xor { (i j : Interval) (a b : ℕ) → Holds i a → Holds j b → Holds (bits_xor i j) (bit_xor a b) }
    ensures shifted_right { (i : Interval) (a k : ℕ) → Holds i a → Holds (shifted_right i k) (a / 2 ^ k) }
    ensures choice { (i j : Interval) (a b : ℕ) (first : Bool) → Holds i a → Holds j b
        → Holds (choice i j) (if first then a else b) }
{}
