ghost use Rattle.std.specs.Prelude.{◌≡◌, ◌<◌, nat_lt, if◌then◌else◌, Some, None};

use base::MAX_OPERATIONS;
use std::marker::Model;

/// The operation that owns a line, counted from 0 and below 2,048. Contracts see the number.
#[derive(Clone, Copy, PartialEq, Eq)]
pub struct Owner {
    op: u16,
}

impl Model for Owner {
    ghost use Rattle.std.specs.Prelude.{ℕ, ◌<◌};
    ghost use Rattle.base.specs.declared.limits.TheConstants.{MAX_OPERATIONS};

    ghost Value = { ℕ };

    ghost view = { λ owner. owner.op };

    ghost invariant = { λ owner. owner.op < MAX_OPERATIONS };

    ghost inverse = { λ n. record { op = n } };
}

impl Owner {
    /// The operation with this number, None exactly where it is 2,048 or more.
    pub fn new(op: u16) -> Option<Owner>
        ensures { result ≡ if nat_lt op MAX_OPERATIONS then Some op else None }
    {
        if usize::from(op) >= MAX_OPERATIONS {
            return None;
        }
        Some(Owner { op })
    }

    /// The number.
    pub fn op(self) -> u16
        ensures number { result ≡ self }
        ensures range { self < MAX_OPERATIONS }
    {
        self.op
    }
}
