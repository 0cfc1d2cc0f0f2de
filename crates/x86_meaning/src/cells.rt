ghost use Rattle.std.specs.Prelude.{◌≡◌, ◌%◌, ◌≤◌, is_some, IfSome, OnOk, OnErr, if◌then◌else◌};
ghost use Rattle.std.specs.FinMap as map;

use std::alloc::{AllocError, Global};
use std::collections::BTreeMap;
use std::marker::Model;

/// A memory of words at multiples of 8. Contracts see the finite map from addresses to words.
#[derive(Drop)]
pub struct Cells {
    words: BTreeMap<u64, u64>,
}

impl Model for Cells {
    ghost use Rattle.std.specs.Prelude.{ℕ};
    ghost use Rattle.std.specs.Ordering.{nat_cmp};
    ghost use Rattle.std.specs.FinMap as map;
    ghost use Rattle.std.specs.Coded.{coded_ℕ};

    ghost Value = { map.FinMap nat_cmp ℕ };

    ghost coded = { map.code coded_ℕ coded_ℕ };

    ghost use Rattle.x86_meaning.specs.Aligned.{AreAligned};

    ghost view = { λ cells. map.from_entries cells.words.entries };

    ghost invariant = { λ cells. AreAligned (map.from_entries cells.words.entries) };
}

impl Cells {
    /// The empty memory, which takes no memory yet.
    pub fn new(alloc: Global) -> Cells
        ensures { result ≡ map.empty }
    {
        Cells {
            words: BTreeMap::new(alloc),
        }
    }

    /// Puts a word at an address. The one error is want of memory, which leaves the memory as it was.
    pub fn set(&mut self, address: u64, word: u64) -> Result<(), AllocError>
        requires { address % 8 ≡ 0 }
        ensures ok { OnOk result (self.new ≡ map.insert self.old address word) }
        ensures err { OnErr result (self.new ≡ self.old) }
    {
        self.words.insert(address, word)?;
        Ok(())
    }

    /// The word at an address, None exactly where the address is not in the memory.
    pub fn get(&self, address: u64) -> Option<u64>
        ensures word { result ≡ map.get self.now address }
        ensures aligned { IfSome result (λ _. address % 8 ≡ 0) }
    {
        self.words.get(&address).copied()
    }

    /// Puts another word at an address, or answers false exactly where the address is not in the memory. It takes
    /// no memory.
    pub fn replace(&mut self, address: u64, word: u64) -> bool
        ensures there { result ≡ is_some (map.get self.old address) }
        ensures cells { self.new ≡ (if is_some (map.get self.old address) then map.insert self.old address word else
            self.old) }
    {
        match self.words.get_mut(&address) {
            Some(cell) => {
                *cell = word;
                true
            }
            None => false,
        }
    }
}
