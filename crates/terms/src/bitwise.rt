//! The rules of tests for 0 and of results by bits.

ghost use Rattle.std.specs.Prelude.{◌≡◌, ◌<◌, length};
ghost use Rattle.terms.specs.Rules.{and_of, covers, or_of, xor_of, zero_of};

use crate::constants::{constant, constant_node, interval_of, is_constant, own};
use crate::nodes::{Built, NodeKind, Nodes};
use intervals::{between, bits_and, bits_or, bits_xor, ones};

/// Whether the constant that was found has every digit of the words up to `high`, and no other.
fn is_cover(found: Option<u64>, high: u64) -> bool
    ensures { result ≡ covers found high }
{
    match found {
        Some(v) => ones(v) == v && high <= v,
        None => false,
    }
}

/// 1 where the node is 0, else 0.
#[tactic(auto, unfolding(crate::specs::Rules::zero_of))]
pub fn zero_form<N: Nodes>(nodes: &N, x: u32) -> Built
    requires { x < length (N.nodes nodes.now) }
    ensures { result ≡ zero_of (N.nodes nodes.now) x }
{
    let node = nodes.node(x);
    if node.low >= 1 {
        return Built::Make(constant_node(0));
    }
    if is_constant(constant(node), 0) {
        return Built::Make(constant_node(1));
    }
    own(NodeKind::Zero(x), between(0, 1))
}

/// The bits that both nodes have.
#[tactic(auto, unfolding(crate::specs::Rules::and_of))]
pub fn and_form<N: Nodes>(nodes: &N, a: u32, b: u32) -> Built
    requires a_in { a < length (N.nodes nodes.now) }
    requires b_in { b < length (N.nodes nodes.now) }
    ensures { result ≡ and_of (N.nodes nodes.now) a b }
{
    let p = nodes.node(a);
    let q = nodes.node(b);
    if a == b {
        return Built::Is(a);
    }
    if is_constant(constant(p), 0) || is_constant(constant(q), 0) {
        return Built::Make(constant_node(0));
    }
    if is_cover(constant(p), q.high) {
        return Built::Is(b);
    }
    if is_cover(constant(q), p.high) {
        return Built::Is(a);
    }
    match (constant(p), constant(q)) {
        (Some(v), Some(w)) => Built::Make(constant_node(v & w)),
        _ => own(
            NodeKind::And(a, b),
            bits_and(interval_of(p), interval_of(q)),
        ),
    }
}

/// The bits that either node has.
#[tactic(auto, unfolding(crate::specs::Rules::or_of))]
pub fn or_form<N: Nodes>(nodes: &N, a: u32, b: u32) -> Built
    requires a_in { a < length (N.nodes nodes.now) }
    requires b_in { b < length (N.nodes nodes.now) }
    ensures { result ≡ or_of (N.nodes nodes.now) a b }
{
    let p = nodes.node(a);
    let q = nodes.node(b);
    if a == b {
        return Built::Is(a);
    }
    if is_constant(constant(p), 0) {
        return Built::Is(b);
    }
    if is_constant(constant(q), 0) {
        return Built::Is(a);
    }
    match (constant(p), constant(q)) {
        (Some(v), Some(w)) => Built::Make(constant_node(v | w)),
        _ => own(NodeKind::Or(a, b), bits_or(interval_of(p), interval_of(q))),
    }
}

/// The bits that one of the two nodes has.
#[tactic(auto, unfolding(crate::specs::Rules::xor_of))]
pub fn xor_form<N: Nodes>(nodes: &N, a: u32, b: u32) -> Built
    requires a_in { a < length (N.nodes nodes.now) }
    requires b_in { b < length (N.nodes nodes.now) }
    ensures { result ≡ xor_of (N.nodes nodes.now) a b }
{
    let p = nodes.node(a);
    let q = nodes.node(b);
    if a == b {
        return Built::Make(constant_node(0));
    }
    if is_constant(constant(p), 0) {
        return Built::Is(b);
    }
    if is_constant(constant(q), 0) {
        return Built::Is(a);
    }
    match (constant(p), constant(q)) {
        (Some(v), Some(w)) => Built::Make(constant_node(v ^ w)),
        _ => own(
            NodeKind::Xor(a, b),
            bits_xor(interval_of(p), interval_of(q)),
        ),
    }
}
