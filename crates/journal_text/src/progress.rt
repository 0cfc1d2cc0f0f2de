use journal_rules::Journal;

/// Which line comes next.
#[derive(Clone, Copy)]
pub enum Stage {
    Version,
    Program,
    Seeds,
    Turns,
    Opening,
    Entries,
    Done,
}

/// Which line comes next, and the journal so far.
#[derive(Drop)]
pub struct Progress {
    pub stage: Stage,
    pub journal: Journal,
}

/// Why a line was not read.
pub enum Stop {
    /// It is faulty.
    Line,
    /// Memory ran out.
    Memory,
}
