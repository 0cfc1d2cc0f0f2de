ghost use Rattle.std.specs.Prelude.{◌≡◌, [], length};
ghost use Rattle.term_store.specs.Indexed.{joined_nodes};
ghost use Rattle.term_store.specs.Interning.{place_of};

use crate::interner::Interner;
use crate::store::Store;
use std::alloc::{AllocError, Global};
use std::collections::HashMap;
use std::marker::Model;
use terms::{Built, Form, Node, Nodes, normal};

/// A table whose first nodes are those of a store, which it leaves as it is, and which others may read beside it.
/// Contracts see the store's nodes and the tail's own.
#[derive(Drop)]
pub struct Tail<'a> {
    base: &'a Store,
    list: Vec<Node>,
    index: HashMap<Node, u32>,
}

impl<'a> Model for Tail<'a> {
    ghost use Rattle.term_store.specs.Indexed.{IsTail, Joined};

    ghost Value = { Joined };

    ghost view = { λ s. record { base = s.base.now; own = s.list.items } };

    ghost invariant = { λ s. IsTail (record { base = s.base.now; own = s.list.items }) s.index };
}

impl<'a> Tail<'a> {
    /// A tail with no nodes of its own, which takes no memory yet.
    pub fn new(alloc: Global, base: &'a Store) -> Tail<'a>
        ensures { result ≡ record { base = base.now; own = [] } }
    {
        let _count = base.count();
        Tail {
            base,
            list: Vec::new(alloc),
            index: HashMap::new(alloc),
        }
    }

    /// How many nodes stand behind those of the store.
    pub fn own(&self) -> u32
        ensures { result ≡ length self.now.own }
    {
        self.list.len() as u32
    }

    /// The number of a node, where the table has it.
    pub fn find(&self, node: &Node) -> Option<u32>
        ensures { result ≡ place_of (joined_nodes self.now) node.now }
    {
        match self.base.find(node) {
            Some(place) => Some(place),
            None => self.index.get(node).copied(),
        }
    }

    /// Takes out the tail's own nodes; their room is kept for the next ones.
    pub fn clear(&mut self)
        ensures { self.new ≡ record { base = self.old.base; own = [] } }
    {
        let _count = self.base.count();
        self.list.clear();
        self.index.clear();
    }
}

impl<'a> Nodes for Tail<'a> {
    ghost nodes = { λ s. joined_nodes s };

    /// The node with this number, counted from 0 over the store's nodes and then the tail's own, in constant time.
    fn node(&self, number: u32) -> &Node {
        let first = self.base.count();
        if number < first {
            self.base.node(number)
        } else {
            &self.list[(number - first) as usize]
        }
    }

    /// How many nodes the store and the tail have, fewer than 2^32.
    fn count(&self) -> u32 {
        self.base.count() + self.list.len() as u32
    }
}

impl<'a> Interner for Tail<'a> {
    ghost fixed = { λ s. s.base };

    /// The number of a node: that of the store's or the tail's where one has it, else the next one, in the tail.
    fn intern(&mut self, node: Node) -> Result<u32, AllocError> {
        if let Some(place) = self.find(&node) {
            return Ok(place);
        }
        let place = self.base.count() + self.list.len() as u32;
        let key = node.clone()?;
        self.list.try_reserve(1)?;
        self.index.insert(key, place)?;
        self.list.push(node)?;
        Ok(place)
    }

    /// The number of what the rules make of a form over the store's nodes and the tail's.
    fn make(&mut self, form: Form) -> Result<u32, AllocError> {
        let alloc = *self.list.allocator();
        match normal(alloc, &*self, form)? {
            Built::Is(number) => Ok(number),
            Built::Make(node) => self.intern(node),
        }
    }
}
