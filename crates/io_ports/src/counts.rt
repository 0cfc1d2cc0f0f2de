//! The two counts that a shelf keeps.
ghost use Rattle.std.specs.Prelude.{◌≡◌, ◌≤◌};
ghost use Rattle.io_ports.specs.Shelf.{saturating_add};

use super::fault::Fault;

// How many calls a shelf has had and how many of them failed. Each stays at `u64::MAX`.
#[derive(Debug, Drop)]
pub struct Counts {
    pub calls: u64,
    pub faults: u64,
}

impl Counts {
    // No call yet.
    pub fn new() -> Counts
        ensures { result ≡ record { calls = 0; faults = 0 } }
    {
        Counts {
            calls: 0,
            faults: 0,
        }
    }

    // Counts a call.
    pub fn begin(&mut self)
        ensures { self.new ≡ record self.old { calls = saturating_add self.old.calls 1 } }
    {
        self.calls = self.calls.saturating_add(1);
    }

    // Counts a fault, and gives the answer of a call that failed.
    pub fn fault(&mut self) -> Fault
        ensures state { self.new ≡ record self.old { faults = saturating_add self.old.faults 1 } }
        ensures later { self.old.faults ≤ self.new.faults }
        ensures answer { result ≡ Fault.Failed }
    {
        self.faults = self.faults.saturating_add(1);
        Fault::Failed
    }
}
