//! The rules of selections.

ghost use Rattle.std.specs.Prelude.{◌≡◌, ◌<◌, length};
ghost use Rattle.terms.specs.Rules.{select_of, tested};

use crate::constants::{constant, interval_of, is_constant, own};
use crate::nodes::{Built, Node, NodeKind, Nodes};
use intervals::choice;

/// The node that is tested to be 0, where the node is such a test.
fn tested(node: &Node) -> Option<u32>
    ensures { result ≡ tested node.now.kind }
{
    match &node.kind {
        NodeKind::Zero(x) => Some(*x),
        _ => None,
    }
}

/// `x` where `c` is 0, else `y`.
#[tactic(auto, unfolding(crate::specs::Rules::select_of, crate::specs::Rules::select_below))]
pub fn select_form<N: Nodes>(nodes: &N, c: u32, x: u32, y: u32) -> Built
    requires c_in { c < length (N.nodes nodes.now) }
    requires x_in { x < length (N.nodes nodes.now) }
    requires y_in { y < length (N.nodes nodes.now) }
    ensures { result ≡ select_of (N.nodes nodes.now) c x y }
{
    let _count = nodes.count();
    let mut condition = c;
    let mut at_zero = x;
    let mut otherwise = y;
    loop {
        let node = nodes.node(condition);
        if node.low >= 1 {
            return Built::Is(otherwise);
        }
        if is_constant(constant(node), 0) {
            return Built::Is(at_zero);
        }
        if at_zero == otherwise {
            return Built::Is(at_zero);
        }
        let Some(turned) = tested(node) else {
            let both = choice(
                interval_of(nodes.node(at_zero)),
                interval_of(nodes.node(otherwise)),
            );
            return own(
                NodeKind::Select {
                    c: condition,
                    x: at_zero,
                    y: otherwise,
                },
                both,
            );
        };
        condition = turned;
        (at_zero, otherwise) = (otherwise, at_zero);
    }
}
