//! The port: files by name, and an output.
ghost use Rattle.std.specs.Prelude.{◌≡◌, ◌≢◌, ℕ, ◌<◌, ◌≤◌, List, length, vec_len, IfOk, IfErr, IfSome, OnOk, OnErr};
ghost use Rattle.std.specs.declared.option.Option.{Option};
ghost use Rattle.io_ports.specs.Shelf.{saturating_add, HasCause, Stays, Grows, GrowsByPart};

use super::fault::Fault;
use std::alloc::Global;

/// Files by name, and an output that grows.
///
/// A shelf may tell what a file has and what was said, as a shelf in memory does, or not, as one over the
/// files of the machine. What it does not tell is open.
pub trait Shelf {
    // The bytes of the file of that name. `None`: there is no such file, or the shelf does not tell.
    ghost held: { Self → List ℕ → Option (List ℕ) };

    // All that was said so far. `None`: the shelf does not tell.
    ghost said: { Self → Option (List ℕ) };

    // How many calls of the three methods there were. It stays at `u64::MAX`.
    ghost calls: { Self → ℕ };

    // A count of faults. It never falls, and a call that fails raises it, up to `u64::MAX`.
    ghost faults: { Self → ℕ };

    /// The bytes of the file `name`, which are at most `limit`.
    ///
    /// `Failed` where the file could not be read, which the shelf counts as a fault. `TooLong` where the file
    /// has more than `limit` bytes. `Memory` where there is no memory for its bytes.
    fn load(&mut self, alloc: Global, name: &str, limit: u64) -> Result<Vec<u8>, Fault>
        ensures content { IfOk result (λ v. IfSome (held self.old name.now) (λ b. v.items ≡ b)) }
        ensures within { IfOk result (λ v. vec_len v ≤ limit) }
        ensures long { result ≡ Err Fault.TooLong → IfSome (held self.old name.now) (λ b. limit < length b) }

        // Files and output stay, and are told as before.
        ensures files { (n : List ℕ) → held self.new n ≡ held self.old n }
        ensures output { said self.new ≡ said self.old }

        ensures count { calls self.new ≡ saturating_add (calls self.old) 1 }
        ensures cause { HasCause (faults self.old) (faults self.new) result };

    /// Writes the file `name`: it has these bytes and no others.
    ///
    /// `Failed` where it could not be written, which the shelf counts as a fault. What that file then has is
    /// open. No other error comes.
    fn store(&mut self, name: &str, bytes: &[u8]) -> Result<(), Fault>
        ensures content { OnOk result (IfSome (held self.new name.now) (λ b. b ≡ bytes.now)) }

        // Whatever the answer, the other files and the output stay as far as they are told.
        ensures others { (n : List ℕ) → n ≢ name.now → Stays (held self.old n) (held self.new n) }
        ensures output { Stays (said self.old) (said self.new) }

        ensures only { IfErr result (λ e. e ≡ Fault.Failed) }
        ensures count { calls self.new ≡ saturating_add (calls self.old) 1 }
        ensures cause { HasCause (faults self.old) (faults self.new) result };

    /// Appends these bytes to the output.
    ///
    /// `Failed` where not all could be written, which the shelf counts as a fault. Some first bytes of them
    /// may then have been written. No other error comes.
    fn say(&mut self, bytes: &[u8]) -> Result<(), Fault>
        ensures ok { OnOk result (Grows (said self.old) (said self.new) bytes.now) }
        ensures err { OnErr result (GrowsByPart (said self.old) (said self.new) bytes.now) }

        // Whatever the answer, the files stay as far as they are told.
        ensures files { (n : List ℕ) → Stays (held self.old n) (held self.new n) }

        ensures only { IfErr result (λ e. e ≡ Fault.Failed) }
        ensures count { calls self.new ≡ saturating_add (calls self.old) 1 }
        ensures cause { HasCause (faults self.old) (faults self.new) result };
}
