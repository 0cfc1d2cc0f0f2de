//! Constants, nodes whose interval is one word, and intervals of nodes.

ghost use Rattle.std.specs.Prelude.{◌≡◌};
ghost use Rattle.terms.specs.Rules.{const_node, finished, is_value, own};
ghost use Rattle.terms.specs.Tables.{const_of};

use crate::nodes::{Built, Node, NodeKind};
use intervals::Interval;

/// The constant that a node is, where it is one.
pub fn constant(node: &Node) -> Option<u64>
    ensures { result ≡ const_of node.now.kind }
{
    match &node.kind {
        NodeKind::Const(v) => Some(*v),
        _ => None,
    }
}

/// The node of a constant.
pub fn constant_node(v: u64) -> Node
    ensures { result ≡ const_node v }
{
    Node {
        kind: NodeKind::Const(v),
        low: v,
        high: v,
    }
}

/// The interval in which a node's word lies.
pub fn interval_of(node: &Node) -> Interval
    ensures { result ≡ record { low = node.now.low; high = node.now.high } }
{
    Interval {
        low: node.low,
        high: node.high,
    }
}

/// A node with an interval; the constant where it is one word.
#[tactic(auto, unfolding(crate::specs::Rules::finished))]
pub fn finish(kind: NodeKind, interval: Interval) -> Node
    ensures { result ≡ finished kind interval }
{
    if interval.low == interval.high {
        constant_node(interval.low)
    } else {
        Node {
            kind,
            low: interval.low,
            high: interval.high,
        }
    }
}

/// Its own node, where no other rule is left.
pub fn own(kind: NodeKind, interval: Interval) -> Built
    ensures { result ≡ own kind interval }
{
    Built::Make(finish(kind, interval))
}

/// Whether the constant that was found is this one.
pub fn is_constant(found: Option<u64>, v: u64) -> bool
    ensures { result ≡ is_value found v }
{
    match found {
        Some(w) => w == v,
        None => false,
    }
}
