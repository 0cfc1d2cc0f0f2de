//! A shelf over the files and the standard output of the process.
ghost use Rattle.std.specs.Prelude.{◌≡◌, ◌≤◌, vec_len, IfOk, IfErr};
ghost use Rattle.io_ports.specs.Shelf.{saturating_add, faults_after, HasCause};

use super::counts::Counts;
use super::fault::Fault;
use super::shelf::Shelf;
use super::transfers::{load_from, write_to};
use std::alloc::Global;
use std::rt::Files;
use std::{fs, io};

/// A shelf over the files and the standard output of the process. It is the trusted edge: no contract tells
/// what a file has, nor what reached the output. What is read and written through an open file is that of
/// `load_from` and `write_to`, whose contracts speak of any reader and writer.
#[derive(Drop)]
pub struct HostShelf<'a, R: Files + Print> {
    rt: &'a R,
    counts: Counts,
}

impl<'a, R: Files + Print> HostShelf<'a, R> {
    /// A shelf that works through `rt`, with no call yet.
    pub fn new(rt: &'a R) -> HostShelf<'a, R>
        ensures calls { ⟦<HostShelf<'a, R> as Shelf>⟧.calls result ≡ 0 }
        ensures faults { ⟦<HostShelf<'a, R> as Shelf>⟧.faults result ≡ 0 }
    {
        HostShelf {
            rt,
            counts: Counts::new(),
        }
    }
}

impl<'a, R: Files + Print> Shelf for HostShelf<'a, R> {
    ghost use Rattle.std.specs.Prelude.{None};
    ghost use Rattle.io_ports.specs.HostShelf.{call_count_of, fault_count_of};

    ghost held = { λ s n. None };

    ghost said = { λ s. None };

    ghost calls = { call_count_of };

    ghost faults = { fault_count_of };

    /// The bytes of the file at the path `name`, of which it reads at most `limit + 1`. A read that gives
    /// nothing is the end of the file. It fails where the file cannot be opened or a read gives an error.
    fn load(&mut self, alloc: Global, name: &str, limit: u64) -> Result<Vec<u8>, Fault>
        ensures within { IfOk result (λ v. vec_len v ≤ limit) }
        ensures count { call_count_of self.new ≡ saturating_add (call_count_of self.old) 1 }
        ensures faults { fault_count_of self.new ≡ faults_after (fault_count_of self.old) result }
        ensures cause { HasCause (fault_count_of self.old) (fault_count_of self.new) result }
    {
        self.counts.begin();
        match fs::open(self.rt, name) {
            Ok(mut file) => load_from(&mut self.counts, alloc, &mut file, limit),
            Err(_) => Err(self.counts.fault()),
        }
    }

    /// Makes the file at the path `name`, or empties it, and writes the bytes. It fails where that file cannot
    /// be made, a write gives an error, or one takes nothing of what is left.
    fn store(&mut self, name: &str, bytes: &[u8]) -> Result<(), Fault>
        ensures only { IfErr result (λ e. e ≡ Fault.Failed) }
        ensures count { call_count_of self.new ≡ saturating_add (call_count_of self.old) 1 }
        ensures faults { fault_count_of self.new ≡ faults_after (fault_count_of self.old) result }
        ensures cause { HasCause (fault_count_of self.old) (fault_count_of self.new) result }
    {
        self.counts.begin();
        match fs::create(self.rt, name) {
            Ok(mut file) => write_to(&mut self.counts, &mut file, bytes),
            Err(_) => Err(self.counts.fault()),
        }
    }

    /// Writes the bytes to standard output. It fails where a write gives an error, or takes nothing of what is
    /// left.
    fn say(&mut self, bytes: &[u8]) -> Result<(), Fault>
        ensures only { IfErr result (λ e. e ≡ Fault.Failed) }
        ensures count { call_count_of self.new ≡ saturating_add (call_count_of self.old) 1 }
        ensures faults { fault_count_of self.new ≡ faults_after (fault_count_of self.old) result }
        ensures cause { HasCause (fault_count_of self.old) (fault_count_of self.new) result }
    {
        self.counts.begin();
        write_to(&mut self.counts, &mut io::writer(self.rt), bytes)
    }
}
