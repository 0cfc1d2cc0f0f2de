ghost use Rattle.std.specs.Prelude.{◌≡◌, []};
ghost use Rattle.term_store.specs.Interning.{place_of};

use crate::interner::Interner;
use std::alloc::{AllocError, Global};
use std::collections::HashMap;
use std::marker::Model;
use terms::{Built, Form, Node, Nodes, normal};

/// A table of nodes, with an index that tells the place of each by its hash. Contracts see the list of its nodes.
#[derive(Drop)]
pub struct Store {
    list: Vec<Node>,
    index: HashMap<Node, u32>,
}

impl Model for Store {
    ghost use Rattle.std.specs.Prelude.{List};
    ghost use Rattle.terms.specs.declared.nodes.Node.{Node};
    ghost use Rattle.term_store.specs.Indexed.{IsStore};

    ghost Value = { List Node };

    ghost view = { λ s. s.list.items };

    ghost invariant = { λ s. IsStore s.list.items s.index };
}

impl Store {
    /// The empty table, which takes no memory yet.
    pub fn new(alloc: Global) -> Store
        ensures { result ≡ [] }
    {
        Store {
            list: Vec::new(alloc),
            index: HashMap::new(alloc),
        }
    }

    /// The number of a node, where the table has it.
    pub fn find(&self, node: &Node) -> Option<u32>
        ensures { result ≡ place_of self.now node.now }
    {
        self.index.get(node).copied()
    }
}

impl Nodes for Store {
    ghost nodes = { λ s. s };

    /// The node with this number, counted from 0, in constant time.
    fn node(&self, number: u32) -> &Node {
        &self.list[number as usize]
    }

    /// How many nodes the table has, fewer than 2^32.
    fn count(&self) -> u32 {
        self.list.len() as u32
    }
}

impl Interner for Store {
    ghost use Rattle.std.specs.Prelude.{[]};

    ghost fixed = { λ s. [] };

    /// The number of a node: that of the table's own where it has it, else the next one.
    fn intern(&mut self, node: Node) -> Result<u32, AllocError> {
        if let Some(place) = self.find(&node) {
            return Ok(place);
        }
        let place = self.list.len() as u32;
        let key = node.clone()?;
        self.list.try_reserve(1)?;
        self.index.insert(key, place)?;
        self.list.push(node)?;
        Ok(place)
    }

    /// The number of what the rules make of a form over this table.
    fn make(&mut self, form: Form) -> Result<u32, AllocError> {
        let alloc = *self.list.allocator();
        match normal(alloc, &*self, form)? {
            Built::Is(number) => Ok(number),
            Built::Make(node) => self.intern(node),
        }
    }
}
