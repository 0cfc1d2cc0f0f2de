use crate::words::{Cell, Key};
use word_program::{Kind, Target};

/// An operation by its keys.
#[derive(Clone, Copy)]
pub struct Shape {
    /// What it computes.
    pub kind: Kind,
    /// The value number, and so the key, of its first result.
    pub first: Key,
    /// How many operands it has.
    pub count: usize,
    /// The keys of its operands. Behind the last one stands the key of the literal 0.
    pub operands: [Key; 3],
    /// Of each operand the word of an input array that it is in the program, also where its key is a literal's.
    pub cells: [Option<Cell>; 3],
    /// The targets of its results. A result that is stored behind the last operation is a value until then.
    pub targets: [Target; 2],
    /// Of a shift the keys of its count, and of 64 without it.
    pub shifts: [Key; 2],
}

impl Shape {
    /// The key of the operand at this place.
    pub fn operand(&self, place: usize) -> Key {
        self.operands.get(place).copied().unwrap_or(0)
    }

    /// The word of an input array that the operand at this place is in the program.
    pub fn cell(&self, place: usize) -> Option<Cell> {
        self.cells.get(place).copied().unwrap_or(None)
    }

    /// The target of the result with this number.
    pub fn target(&self, number: usize) -> Target {
        self.targets.get(number).copied().unwrap_or(Target::Unused)
    }

    /// Whether the result with this number goes to an output at once.
    pub fn is_stored(&self, number: usize) -> bool {
        matches!(self.target(number), Target::Output { .. })
    }

    /// Whether the two words that the operation combines may change places.
    pub fn commutes(&self) -> bool {
        matches!(
            self.kind,
            Kind::AddCarry | Kind::MulX | Kind::Mul | Kind::Add | Kind::And | Kind::Or | Kind::Xor
        )
    }

    /// Whether its first operand is a bit: a carry, a borrow or a condition.
    pub fn takes_bit(&self) -> bool {
        matches!(self.kind, Kind::AddCarry | Kind::SubBorrow | Kind::CMov)
    }

    /// Whether a slot with this template multiplies by `mulx`.
    pub fn is_mulx(&self, template: u8) -> bool {
        match self.kind {
            Kind::MulX => template == 0,
            Kind::Mul => template == 1,
            _ => false,
        }
    }

    /// Whether one of its operands is a word of an input array in the program.
    pub fn reads_array(&self) -> bool {
        self.cells.iter().any(|cell| cell.is_some())
    }
}

/// A word that is stored behind the last operation, since outputs may share memory with inputs.
#[derive(Clone, Copy)]
pub struct LateStore {
    /// The key of the word.
    pub key: Key,
    /// Where it goes.
    pub cell: Cell,
}
