/// A place in a plan: an operation, and how its instructions are chosen.
#[derive(Clone, Copy, Debug, PartialEq, Eq)]
pub struct Slot {
    /// The operation, counted from 0 in the order of the program.
    pub op: u16,
    /// Which of the operation's templates is taken, counted from 0.
    pub template: u8,
    /// Whether the two operands of an operation that commutes change places.
    pub swap: bool,
    /// Whether an operand in memory is loaded into a register before the operation.
    pub load_first: bool,
}
