// Small lists.
ghost use Rattle.std.specs.Prelude.{◌≡◌, ℕ, List, [], ◌∷◌, ◌++◌, ◌==◌, ◌&&◌, nat_eq, IfOk, OnErr, OnOk};
ghost use Rattle.std.specs.Cmp.Lexicographic.{pointwise};
ghost use Rattle.std.specs.Cmp.Rules.{comparing, hashing};
ghost use Rattle.std.proofs.Common.{rules};
ghost use Rattle.std.specs.Hash as fed;
ghost use Rattle.std.specs.Hash.{items_Alike};

use std::alloc::{AllocError, Global};
use std::hash::{Hash, Hasher};
use std::marker::Model;

#[derive(Clone, Copy, PartialEq, Eq, Hash, Debug)]
pub struct Term {
    pub times: u64,
    pub node: u32,
}

#[derive(Drop, Debug)]
pub struct Terms {
    items: Vec<Term>,
}

impl Model for Terms {
    ghost use Rattle.std.specs.Prelude.{ℕ, List};
    ghost use Rattle.terms.specs.declared.lists.Term.{Term};

    ghost Value = { List Term };

    ghost view = { λ s. s.items.items };
}

impl Terms {
    pub fn new(alloc: Global) -> Terms
        ensures { result ≡ [] }
    {
        Terms {
            items: Vec::new(alloc),
        }
    }

    pub fn from_vec(items: Vec<Term>) -> Terms
        ensures { result ≡ items.items }
    {
        Terms { items }
    }

    pub fn push(&mut self, term: Term) -> Result<(), AllocError>
        ensures ok { OnOk result (self.new ≡ self.old ++ term ∷ []) }
        ensures err { OnErr result (self.new ≡ self.old) }
    {
        self.items.push(term)?;
        Ok(())
    }

    pub fn items(&self) -> &[Term]
        ensures { result.now ≡ self.now }
    {
        self.items.as_slice()
    }
}

impl Clone for Terms {
    ghost is_clone = { λ a b. b ≡ a };

    fn clone(&self) -> Result<Terms, AllocError>
        ensures { IfOk result (λ copy. copy ≡ self.now) }
    {
        Ok(Terms {
            items: self.items.clone()?,
        })
    }
}

impl PartialEq for Terms {
    ghost eq = { pointwise ⟦<Term as PartialEq>⟧.eq };

    ghost use Rattle.std.specs.Cmp.Lexicographic.{lists_per};
    ghost use Rattle.terms.specs.contracts.lists.TermPartialEq.TheImpl.Laws.{laws-law};

    ghost laws = { lists_per laws-law };

    fn eq(&self, other: &Terms) -> bool {
        self.items == other.items
    }
}

impl Eq for Terms {
    ghost use Rattle.std.specs.Cmp.Lexicographic.{lists_equiv};
    ghost use Rattle.terms.specs.contracts.lists.TermEq.TheImpl.Laws.{laws-law};

    ghost laws = { lists_equiv laws-law };
}

impl Hash for Terms {
    ghost use Rattle.std.specs.Hash as fed;
    ghost use Rattle.std.specs.Hash.{items_Alike};
    ghost use Rattle.terms.specs.contracts.lists.TermHash.TheImpl.Laws.{respects_eq-law};

    ghost hash_input = { fed.slice ⟦<Term as Hash>⟧.hash_input };

    ghost respects_eq = { (items_Alike (record { fed = respects_eq-law })).fed };

    fn hash<H: Hasher>(&self, state: &mut H) {
        self.items.hash(state);
    }
}

#[derive(Drop, Debug)]
pub struct Numbers {
    items: Vec<u32>,
}

impl Model for Numbers {
    ghost use Rattle.std.specs.Prelude.{ℕ, List};

    ghost Value = { List ℕ };

    ghost view = { λ s. s.items.items };
}

impl Numbers {
    pub fn new(alloc: Global) -> Numbers
        ensures { result ≡ [] }
    {
        Numbers {
            items: Vec::new(alloc),
        }
    }

    pub fn from_vec(items: Vec<u32>) -> Numbers
        ensures { result ≡ items.items }
    {
        Numbers { items }
    }

    pub fn push(&mut self, number: u32) -> Result<(), AllocError>
        ensures ok { OnOk result (self.new ≡ self.old ++ number ∷ []) }
        ensures err { OnErr result (self.new ≡ self.old) }
    {
        self.items.push(number)?;
        Ok(())
    }

    pub fn items(&self) -> &[u32]
        ensures { result.now ≡ self.now }
    {
        self.items.as_slice()
    }
}

impl Clone for Numbers {
    ghost is_clone = { λ a b. b ≡ a };

    fn clone(&self) -> Result<Numbers, AllocError>
        ensures { IfOk result (λ copy. copy ≡ self.now) }
    {
        Ok(Numbers {
            items: self.items.clone()?,
        })
    }
}

impl PartialEq for Numbers {
    ghost eq = { pointwise nat_eq };

    ghost laws = { Prim.search (comparing, rules) };

    fn eq(&self, other: &Numbers) -> bool {
        self.items == other.items
    }
}

impl Eq for Numbers {
    ghost laws = { Prim.search (comparing, rules) };
}

impl Hash for Numbers {
    ghost hash_input = { fed.slice fed.u32 };

    ghost respects_eq = { Prim.search (hashing, rules) };

    fn hash<H: Hasher>(&self, state: &mut H) {
        self.items.hash(state);
    }
}
