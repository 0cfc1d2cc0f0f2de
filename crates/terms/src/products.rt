//! The rules of products.

ghost use Rattle.std.specs.Prelude.{◌≡◌, ◌<◌, length, IfOk};
ghost use Rattle.terms.specs.Rules.{mul_hi_of, mul_lo_of};

use crate::constants::{constant, interval_of, own};
use crate::lists::Term;
use crate::nodes::{Built, NodeKind, Nodes};
use crate::sums::lin_form;
use intervals::{product_high, product_low};
use std::alloc::{AllocError, Global};

/// The low word of a product. The one error is want of memory.
#[tactic(auto, unfolding(crate::specs::Rules::mul_lo_of))]
pub fn mul_lo_form<N: Nodes>(alloc: Global, nodes: &N, a: u32, b: u32) -> Result<Built, AllocError>
    requires a_in { a < length (N.nodes nodes.now) }
    requires b_in { b < length (N.nodes nodes.now) }
    ensures { IfOk result (λ built. built ≡ mul_lo_of (N.nodes nodes.now) a b) }
{
    let p = nodes.node(a);
    let q = nodes.node(b);
    match (constant(p), constant(q)) {
        (Some(v), _) => lin_form(alloc, nodes, 0, &[Term { times: v, node: b }]),
        (None, Some(w)) => lin_form(alloc, nodes, 0, &[Term { times: w, node: a }]),
        (None, None) => Ok(own(
            NodeKind::MulLo(a, b),
            product_low(interval_of(p), interval_of(q)),
        )),
    }
}

/// The high word of a product.
#[tactic(auto, unfolding(crate::specs::Rules::mul_hi_of))]
pub fn mul_hi_form<N: Nodes>(nodes: &N, a: u32, b: u32) -> Built
    requires a_in { a < length (N.nodes nodes.now) }
    requires b_in { b < length (N.nodes nodes.now) }
    ensures { result ≡ mul_hi_of (N.nodes nodes.now) a b }
{
    own(
        NodeKind::MulHi(a, b),
        product_high(interval_of(nodes.node(a)), interval_of(nodes.node(b))),
    )
}
