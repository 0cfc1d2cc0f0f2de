//! Nodes, forms, and what is made of a form.

ghost use Rattle.std.specs.Prelude.{◌≡◌, ℕ, ◌<◌, List, length, IfOk, IsTrue, ◌↔◌};
ghost use Rattle.terms.specs.Tables.{node_at, IsTable};

use crate::lists::{Numbers, Terms};
use std::alloc::AllocError;

/// What a node is: a word that is computed from what stands at the start, and from nodes of smaller numbers.
#[derive(PartialEq, Eq, Hash, Drop, Debug)]
pub enum NodeKind {
    /// A constant.
    Const(u64),
    /// What the register with this number holds at the start.
    Start(u8),
    /// An input word.
    In { param: u8, word: u8 },
    /// `k` and the terms added up modulo 2^64.
    Sum { k: u64, terms: Terms },
    /// The same of a sum that had too many terms, which is not opened in other sums.
    Wide { k: u64, terms: Terms },
    /// The carry of a sum: its floor by 2^64.
    Carry(Numbers),
    /// 1 where `a` is below the sum of the list, else 0.
    Borrow { a: u32, list: Numbers },
    /// 1 where the node is 0, else 0.
    Zero(u32),
    /// The low word of a product.
    MulLo(u32, u32),
    /// The high word of a product.
    MulHi(u32, u32),
    /// The bits that both have.
    And(u32, u32),
    /// The bits that either has.
    Or(u32, u32),
    /// The bits that one of the two has.
    Xor(u32, u32),
    /// A word shifted to the right by `k` bits, from 1 to 63.
    Shr { x: u32, k: u8 },
    /// `x` where `c` is 0, else `y`.
    Select { c: u32, x: u32, y: u32 },
    /// `v` with the low byte of `b` in the place of its own.
    SetB { v: u32, b: u32 },
}

/// A node, and the interval in which its word lies, both ends among it.
#[derive(PartialEq, Eq, Hash, Drop, Debug)]
pub struct Node {
    pub kind: NodeKind,
    pub low: u64,
    pub high: u64,
}

impl Clone for NodeKind {
    ghost is_clone = { λ a b. b ≡ a };

    fn clone(&self) -> Result<NodeKind, AllocError> {
        match self {
            NodeKind::Const(v) => Ok(NodeKind::Const(*v)),
            NodeKind::Start(reg) => Ok(NodeKind::Start(*reg)),
            NodeKind::In { param, word } => Ok(NodeKind::In {
                param: *param,
                word: *word,
            }),
            NodeKind::Sum { k, terms } => Ok(NodeKind::Sum {
                k: *k,
                terms: terms.clone()?,
            }),
            NodeKind::Wide { k, terms } => Ok(NodeKind::Wide {
                k: *k,
                terms: terms.clone()?,
            }),
            NodeKind::Carry(list) => Ok(NodeKind::Carry(list.clone()?)),
            NodeKind::Borrow { a, list } => Ok(NodeKind::Borrow {
                a: *a,
                list: list.clone()?,
            }),
            NodeKind::Zero(x) => Ok(NodeKind::Zero(*x)),
            NodeKind::MulLo(a, b) => Ok(NodeKind::MulLo(*a, *b)),
            NodeKind::MulHi(a, b) => Ok(NodeKind::MulHi(*a, *b)),
            NodeKind::And(a, b) => Ok(NodeKind::And(*a, *b)),
            NodeKind::Or(a, b) => Ok(NodeKind::Or(*a, *b)),
            NodeKind::Xor(a, b) => Ok(NodeKind::Xor(*a, *b)),
            NodeKind::Shr { x, k } => Ok(NodeKind::Shr { x: *x, k: *k }),
            NodeKind::Select { c, x, y } => Ok(NodeKind::Select {
                c: *c,
                x: *x,
                y: *y,
            }),
            NodeKind::SetB { v, b } => Ok(NodeKind::SetB { v: *v, b: *b }),
        }
    }
}

impl Clone for Node {
    ghost is_clone = { λ a b. b ≡ a };

    fn clone(&self) -> Result<Node, AllocError> {
        Ok(Node {
            kind: self.kind.clone()?,
            low: self.low,
            high: self.high,
        })
    }
}

/// Whether two nodes are the same.
pub fn is_same(a: &Node, b: &Node) -> bool
    ensures { IsTrue result ↔ (a.now ≡ b.now) }
{
    *a == *b
}

/// A table of nodes: distinct ones, each of which refers to smaller numbers alone. Contracts see the list of them.
pub trait Nodes {
    ghost use Rattle.terms.specs.declared.nodes.Node.{Node};

    ghost nodes: { Self → List Node };

    /// The node with this number, counted from 0.
    fn node(&self, number: u32) -> &Node
        requires { number < length (nodes self.now) }
        ensures { result.now ≡ node_at (nodes self.now) number };

    /// How many nodes there are.
    fn count(&self) -> u32
        ensures count { result ≡ length (nodes self.now) }
        ensures table { IsTable (nodes self.now) };
}

/// What the rules turn into a number of the table, or into a node: a node's kind with its arguments in any order,
/// and a sum of words in place of a sum of joined terms.
#[derive(Drop, Debug)]
pub enum Form {
    /// A constant.
    Const(u64),
    /// What the register with this number, below 16, holds at the start.
    Start(u8),
    /// An input word, and its bounds.
    In {
        param: u8,
        word: u8,
        low: u64,
        high: u64,
    },
    /// `k` and at most 16 terms added up modulo 2^64.
    Lin {
        k: u64,
        terms: Terms,
    },
    /// The carry of two or three nodes, of which at most two may be more than 1.
    Carry(Numbers),
    /// 1 where `a` is below the sum of one or two nodes, else 0.
    Borrow {
        a: u32,
        list: Numbers,
    },
    /// 1 where the node is 0, else 0.
    Zero(u32),
    /// The low word of a product.
    MulLo(u32, u32),
    /// The high word of a product.
    MulHi(u32, u32),
    /// The bits that both have.
    And(u32, u32),
    /// The bits that either has.
    Or(u32, u32),
    /// The bits that one of the two has.
    Xor(u32, u32),
    /// A word shifted to the right by `k` bits, from 1 to 63.
    Shr {
        x: u32,
        k: u8,
    },
    /// `x` where `c` is 0, else `y`.
    Select {
        c: u32,
        x: u32,
        y: u32,
    },
    /// `v` with the low byte of `b` in the place of its own.
    SetB {
        v: u32,
        b: u32,
    },
}

/// What is made of a form.
#[derive(Drop, Debug)]
pub enum Built {
    /// The node that has this number already.
    Is(u32),
    /// A node to be put into the table.
    Make(Node),
}
