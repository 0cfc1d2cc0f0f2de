//! The borrow of a difference: whether a node is below a sum of nodes.

ghost use Rattle.std.specs.Prelude.{◌≡◌, ◌<◌, length, IfOk};
ghost use Rattle.terms.specs.Rules.{borrow_left, borrow_of, by_number};
ghost use Rattle.terms.specs.Tables.{AreBelow};

use crate::constants::{constant, constant_node, finish, is_constant};
use crate::lists::Numbers;
use crate::nodes::{Built, NodeKind, Nodes};
use crate::numbers::{high_sum, low_sum, numbers_left, sorted};
use intervals::between;
use std::alloc::{AllocError, Global};

/// The borrow, where the nodes to be taken are not the constant 0.
#[tactic(auto, unfolding(crate::specs::Rules::borrow_left))]
fn left_form<N: Nodes>(nodes: &N, a: u32, left: Vec<u32>) -> Built
    requires from { a < length (N.nodes nodes.now) }
    requires inside { AreBelow (length (N.nodes nodes.now)) left.items }
    ensures { result ≡ borrow_left (N.nodes nodes.now) a left.items }
{
    if is_constant(constant(nodes.node(a)), 0) && left.len() == 1 && nodes.node(left[0]).high <= 1 {
        return Built::Is(left[0]);
    }
    Built::Make(finish(
        NodeKind::Borrow {
            a,
            list: Numbers::from_vec(left),
        },
        between(0, 1),
    ))
}

/// The borrow, where the nodes to be taken are in order.
#[tactic(auto, unfolding(crate::specs::Rules::borrow_of))]
fn ordered_form<N: Nodes>(
    alloc: Global,
    nodes: &N,
    a: u32,
    list: &[u32],
) -> Result<Built, AllocError>
    requires from { a < length (N.nodes nodes.now) }
    requires inside { AreBelow (length (N.nodes nodes.now)) list.now }
    ensures { IfOk result (λ built. built ≡ borrow_of (N.nodes nodes.now) a list.now) }
{
    let node = nodes.node(a);
    if high_sum(nodes, list) <= u128::from(node.low) {
        return Ok(Built::Make(constant_node(0)));
    }
    if u128::from(node.high) < low_sum(nodes, list) {
        return Ok(Built::Make(constant_node(1)));
    }
    let left = numbers_left(alloc, nodes, list)?;
    Ok(left_form(nodes, a, left))
}

/// What the rules make of the borrow of nodes taken from `a`. The one error is want of memory.
#[tactic(auto, using(crate::proofs::NumberLists::number_below))]
pub fn borrow_form<N: Nodes>(
    alloc: Global,
    nodes: &N,
    a: u32,
    list: &[u32],
) -> Result<Built, AllocError>
    requires from { a < length (N.nodes nodes.now) }
    requires inside { AreBelow (length (N.nodes nodes.now)) list.now }
    ensures { IfOk result (λ built. built ≡ borrow_of (N.nodes nodes.now) a (by_number list.now)) }
{
    let ordered = sorted(alloc, list)?;
    ordered_form(alloc, nodes, a, ordered.as_slice())
}
