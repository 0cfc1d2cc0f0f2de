//! Laws of the definitions: functions that do nothing, whose contracts are the laws.

ghost use Rattle.std.specs.Prelude.{ℕ, List, ◌<◌, length, slice_index, slice_index_or};
ghost use Rattle.bounds.specs.Soundness.{LieIn};
ghost use Rattle.intervals.specs.declared.interval.Interval.{Interval};
ghost use Rattle.intervals.specs.Intervals.{full};
ghost use Rattle.intervals.specs.Soundness.{IsBetween};

/// Where values lie in intervals, each lies in the interval of its number.
pub fn values_lie_by_number()
    ensures { (list : List Interval) (words : List ℕ) → LieIn list words → (number : ℕ) → number < length words
        → IsBetween (slice_index_or list number full) (slice_index words number) }
{}
