//! A shelf in memory.
ghost use Rattle.std.specs.Prelude.{◌≡◌, ◌≢◌, ◌↔◌, ◌⊎◌, ℕ, ◌<◌, ◌≤◌, ◌++◌, List, [], length, vec_len, IsTrue, IsNone};
ghost use Rattle.std.specs.Prelude.{IfOk, IfErr, IfSome, IfNone, OnOk, OnErr, option_map};
ghost use Rattle.std.specs.BTreeMap.{get_by_text};
ghost use Rattle.io_ports.specs.Shelf.{saturating_add, faults_after, HasCause, Stays, Grows, GrowsByPart};

use super::counts::Counts;
use super::fault::Fault;
use super::shelf::Shelf;
use std::alloc::{AllocError, Global};
use std::collections::BTreeMap;

/// A shelf in memory. It tells every file and all that was said, and fails exactly where it is told to, where
/// the file to load is missing, and where a `store` or `say` finds no memory.
#[derive(Drop)]
pub struct MemoryShelf {
    files: BTreeMap<String, Vec<u8>>,
    output: Vec<u8>,
    fails: Vec<u64>,
    counts: Counts,
}

impl MemoryShelf {
    ghost use Rattle.io_ports.specs.MemoryShelf.{file_of, output_of, call_of, fault_count_of, failing_calls_of};
    ghost use Rattle.io_ports.specs.MemoryShelf.{IsToFail};

    /// A shelf with no file, on which nothing was said.
    ///
    /// `fails` has the numbers of the calls that are to fail. The calls of `load`, `store` and `say` are
    /// numbered together, from 0. An error comes only where there is no memory for that list.
    pub fn new(alloc: Global, fails: &[u64]) -> Result<MemoryShelf, AllocError>
        ensures files { IfOk result (λ s. (n : List ℕ) → file_of s n ≡ None) }
        ensures output { IfOk result (λ s. output_of s ≡ []) }
        ensures calls { IfOk result (λ s. call_of s ≡ 0) }
        ensures faults { IfOk result (λ s. fault_count_of s ≡ 0) }
        ensures fails { IfOk result (λ s. failing_calls_of s ≡ fails.now) }
    {
        Ok(MemoryShelf {
            files: BTreeMap::new(alloc),
            output: Vec::new(alloc),
            fails: Vec::from_slice(alloc, fails)?,
            counts: Counts::new(),
        })
    }

    /// Sets the file `name` to these bytes. It is no call of the shelf, and is not counted.
    ///
    /// An error comes only where there is no memory, and everything is then as before.
    pub fn put(&mut self, name: &str, bytes: &[u8]) -> Result<(), AllocError>
        ensures content { OnOk result (file_of self.new name.now ≡ Some bytes.now) }
        ensures others { (n : List ℕ) → n ≢ name.now → file_of self.new n ≡ file_of self.old n }
        ensures err { OnErr result ((n : List ℕ) → file_of self.new n ≡ file_of self.old n) }
        ensures output { output_of self.new ≡ output_of self.old }
        ensures calls { call_of self.new ≡ call_of self.old }
        ensures faults { fault_count_of self.new ≡ fault_count_of self.old }
        ensures fails { failing_calls_of self.new ≡ failing_calls_of self.old }
    {
        let alloc = *self.output.allocator();
        set_file(&mut self.files, alloc, name, bytes)
    }

    /// The bytes of the file `name`, or `None` where there is no such file.
    pub fn file(&self, name: &str) -> Option<&[u8]>
        ensures { option_map (λ b. b.now) result ≡ file_of self.now name.now }
    {
        match self.files.get(name) {
            Some(bytes) => Some(bytes.as_slice()),
            None => None,
        }
    }

    /// All that was said, in the order of the calls.
    pub fn said(&self) -> &[u8]
        ensures { result.now ≡ output_of self.now }
    {
        self.output.as_slice()
    }

    // Counts a call, and says whether it is to fail.
    fn begin(&mut self) -> bool
        ensures answer { IsTrue result ↔ IsToFail self.old }
        ensures state { self.new ≡ record self.old {
          counts =
              record self.old.counts { calls = saturating_add (call_of self.old) 1 };
        } }
    {
        let is_to_fail = self.fails.contains(&self.counts.calls);
        self.counts.begin();
        is_to_fail
    }
}

// Sets the file `name`. After an error the files are as before.
fn set_file(
    files: &mut BTreeMap<String, Vec<u8>>,
    alloc: Global,
    name: &str,
    bytes: &[u8],
) -> Result<(), AllocError>
    ensures content { OnOk result (option_map (λ v. v.items) (get_by_text files.new name.now) ≡ Some bytes.now) }
    ensures others { (n : List ℕ) → n ≢ name.now →
        option_map (λ v. v.items) (get_by_text files.new n) ≡ option_map (λ v. v.items) (get_by_text files.old n) }
    ensures err { OnErr result ((n : List ℕ) →
        option_map (λ v. v.items) (get_by_text files.new n) ≡ option_map (λ v. v.items) (get_by_text files.old n)) }
{
    let key = String::from_str(alloc, name)?;
    let value = Vec::from_slice(alloc, bytes)?;
    files.insert(key, value)?;
    Ok(())
}

impl Shelf for MemoryShelf {
    ghost use Rattle.std.specs.Prelude.{Some};
    ghost use Rattle.io_ports.specs.MemoryShelf.{file_of, output_of, call_of, fault_count_of, failing_calls_of};
    ghost use Rattle.io_ports.specs.MemoryShelf.{IsToFail};

    ghost held = { file_of };

    ghost said = { λ s. Some (output_of s) };

    ghost calls = { call_of };

    ghost faults = { fault_count_of };

    /// The bytes of the file `name`, which are at most `limit`. It fails where the call is to fail, and where
    /// there is no such file.
    fn load(&mut self, alloc: Global, name: &str, limit: u64) -> Result<Vec<u8>, Fault>
        ensures content { IfOk result (λ v. file_of self.old name.now ≡ Some v.items) }
        ensures within { IfOk result (λ v. vec_len v ≤ limit) }
        ensures long { result ≡ Err Fault.TooLong → IfSome (file_of self.old name.now) (λ b. limit < length b) }

        // It fails exactly where the call is to fail or the file is missing.
        ensures to_fail { IsToFail self.old → result ≡ Err Fault.Failed }
        ensures missing { IfNone (file_of self.old name.now) (result ≡ Err Fault.Failed) }
        ensures failed { result ≡ Err Fault.Failed → IsToFail self.old ⊎ IsNone (file_of self.old name.now) }

        ensures files { (n : List ℕ) → file_of self.new n ≡ file_of self.old n }
        ensures output { output_of self.new ≡ output_of self.old }
        ensures fails { failing_calls_of self.new ≡ failing_calls_of self.old }
        ensures count { call_of self.new ≡ saturating_add (call_of self.old) 1 }
        ensures faults { fault_count_of self.new ≡ faults_after (fault_count_of self.old) result }
        ensures cause { HasCause (fault_count_of self.old) (fault_count_of self.new) result }
    {
        if self.begin() {
            return Err(self.counts.fault());
        }
        let Some(bytes) = self.files.get(name) else {
            return Err(self.counts.fault());
        };
        if bytes.len() as u64 > limit {
            return Err(Fault::TooLong);
        }
        match Vec::from_slice(alloc, bytes) {
            Ok(copy) => Ok(copy),
            Err(_) => Err(Fault::Memory),
        }
    }

    /// Writes the file `name`. It fails where the call is to fail, and where there is no memory. After a
    /// failure all files are as before.
    fn store(&mut self, name: &str, bytes: &[u8]) -> Result<(), Fault>
        ensures content { OnOk result (file_of self.new name.now ≡ Some bytes.now) }
        ensures others { (n : List ℕ) → n ≢ name.now → file_of self.new n ≡ file_of self.old n }
        ensures err { OnErr result ((n : List ℕ) → file_of self.new n ≡ file_of self.old n) }
        ensures to_fail { IsToFail self.old → result ≡ Err Fault.Failed }
        ensures only { IfErr result (λ e. e ≡ Fault.Failed) }

        ensures output { output_of self.new ≡ output_of self.old }
        ensures fails { failing_calls_of self.new ≡ failing_calls_of self.old }
        ensures count { call_of self.new ≡ saturating_add (call_of self.old) 1 }
        ensures faults { fault_count_of self.new ≡ faults_after (fault_count_of self.old) result }
        ensures cause { HasCause (fault_count_of self.old) (fault_count_of self.new) result }
    {
        if self.begin() {
            return Err(self.counts.fault());
        }
        match self.put(name, bytes) {
            Ok(()) => Ok(()),
            Err(_) => Err(self.counts.fault()),
        }
    }

    /// Appends these bytes to the output. It fails where the call is to fail, and where there is no memory.
    /// After a failure the output is as before.
    fn say(&mut self, bytes: &[u8]) -> Result<(), Fault>
        ensures ok { OnOk result (output_of self.new ≡ output_of self.old ++ bytes.now) }
        ensures err { OnErr result (output_of self.new ≡ output_of self.old) }
        ensures to_fail { IsToFail self.old → result ≡ Err Fault.Failed }
        ensures only { IfErr result (λ e. e ≡ Fault.Failed) }

        ensures files { (n : List ℕ) → file_of self.new n ≡ file_of self.old n }
        ensures fails { failing_calls_of self.new ≡ failing_calls_of self.old }
        ensures count { call_of self.new ≡ saturating_add (call_of self.old) 1 }
        ensures faults { fault_count_of self.new ≡ faults_after (fault_count_of self.old) result }
        ensures cause { HasCause (fault_count_of self.old) (fault_count_of self.new) result }
    {
        if self.begin() {
            return Err(self.counts.fault());
        }
        match self.output.extend_from_slice(bytes) {
            Ok(()) => Ok(()),
            Err(_) => Err(self.counts.fault()),
        }
    }
}
