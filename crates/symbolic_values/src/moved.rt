/// How a step ended, where it did not end for want of memory.
#[derive(Clone, Copy, Debug, PartialEq, Eq)]
pub enum Moved {
    /// The state is the one after the step.
    Done,
    /// The step is stuck, and the state is unchanged.
    Stuck,
}
