use equiv_validator::Why;
use thiserror::Error;

/// Why a journal and a listing do not replay: the first check that fails, in the order of `specs/Checks.antt`.
#[derive(Clone, Copy, Debug, PartialEq, Eq, Error)]
pub enum ReplayFault {
    /// The journal is of a program's file with another digest.
    #[error("the journal is of another program")]
    Digest {
        /// The digest that the journal tells.
        journal: [u8; 32],
        /// That of the program's file.
        program: [u8; 32],
    },
    /// An entry breaks a rule.
    #[error("entry {number} breaks rule {rule}")]
    Entry {
        /// The entry's number, counted from 1; for rule 6 the number of entries plus 1.
        number: u32,
        /// The first rule that the entry breaks, from 1 to 6, as `specs/Rules.antt` numbers them.
        rule: u8,
    },
    /// The listing does not realise the plan of the incumbent.
    #[error("the listing differs at slot {slot}")]
    Realises {
        /// The first slot, counted from 0, of which the listing has other lines; or the number of slots, where owned
        /// lines are left over.
        slot: u16,
    },
    /// The journal's cost of the opening is not that of the plain listing of the opening plan; or its cost of the
    /// incumbent is not that of the listing.
    #[error("the journal says cost {recorded}, and the table {table}")]
    Cost {
        /// The cost that the journal tells.
        recorded: u64,
        /// The cost by the table.
        table: u64,
    },
    /// The listing is not proved for the program. This is the first failure.
    #[error("the listing is not proved")]
    NotProved(Why),
    /// Memory ran out.
    #[error("out of memory")]
    Memory,
}
