//! The carry of a sum of nodes.

ghost use Rattle.std.specs.Prelude.{◌≡◌, ◌<◌, length, IfOk};
ghost use Rattle.terms.specs.Rules as rules;
ghost use Rattle.terms.specs.Rules.{by_number, carry_left, carry_of};
ghost use Rattle.terms.specs.Tables.{AreBelow};

use crate::constants::{constant, constant_node, finish, is_constant};
use crate::lists::Numbers;
use crate::nodes::{Built, NodeKind, Nodes};
use crate::numbers::{high_sum, low_sum, numbers_left, sorted};
use intervals::{WORDS, between};
use std::alloc::{AllocError, Global};

/// Whether `m` is the greatest word, and `n` at most 1.
fn passes<N: Nodes>(nodes: &N, m: u32, n: u32) -> bool
    requires m { m < length (N.nodes nodes.now) }
    requires n { n < length (N.nodes nodes.now) }
    ensures { result ≡ rules.passes (N.nodes nodes.now) m n }
{
    is_constant(constant(nodes.node(m)), u64::MAX) && nodes.node(n).high <= 1
}

/// The carry of the nodes that are not the constant 0.
#[tactic(auto, unfolding(crate::specs::Rules::carry_left))]
fn left_form<N: Nodes>(nodes: &N, left: Vec<u32>) -> Built
    requires { AreBelow (length (N.nodes nodes.now)) left.items }
    ensures { result ≡ carry_left (N.nodes nodes.now) left.items }
{
    if left.len() == 2 && passes(nodes, left[0], left[1]) {
        return Built::Is(left[1]);
    }
    if left.len() == 2 && passes(nodes, left[1], left[0]) {
        return Built::Is(left[0]);
    }
    Built::Make(finish(NodeKind::Carry(Numbers::from_vec(left)), between(0, 1)))
}

/// The carry of nodes that are in order.
#[tactic(auto, unfolding(crate::specs::Rules::carry_of))]
fn ordered_form<N: Nodes>(alloc: Global, nodes: &N, list: &[u32]) -> Result<Built, AllocError>
    requires { AreBelow (length (N.nodes nodes.now)) list.now }
    ensures { IfOk result (λ built. built ≡ carry_of (N.nodes nodes.now) list.now) }
{
    if low_sum(nodes, list) >= WORDS {
        return Ok(Built::Make(constant_node(1)));
    }
    if high_sum(nodes, list) < WORDS {
        return Ok(Built::Make(constant_node(0)));
    }
    let left = numbers_left(alloc, nodes, list)?;
    Ok(left_form(nodes, left))
}

/// What the rules make of the carry of nodes. The one error is want of memory.
#[tactic(auto, using(crate::proofs::NumberLists::number_below))]
pub fn carry_form<N: Nodes>(alloc: Global, nodes: &N, list: &[u32]) -> Result<Built, AllocError>
    requires { AreBelow (length (N.nodes nodes.now)) list.now }
    ensures { IfOk result (λ built. built ≡ carry_of (N.nodes nodes.now) (by_number list.now)) }
{
    let ordered = sorted(alloc, list)?;
    ordered_form(alloc, nodes, ordered.as_slice())
}
