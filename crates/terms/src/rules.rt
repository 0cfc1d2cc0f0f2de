//! The rules of every form.

ghost use Rattle.std.specs.Prelude.{◌≡◌, ℕ, ◌<◌, IfOk};
ghost use Rattle.terms.specs.Forms.{BuiltFits, FormFits};
ghost use Rattle.terms.specs.Meaning.{Admits, IsSound, IsValuation, Stands, Start, form_value};
ghost use Rattle.terms.specs.Rules.{normal_of};

use crate::bitwise::{and_form, or_form, xor_form, zero_form};
use crate::borrow::borrow_form;
use crate::carry::carry_form;
use crate::constants::{constant_node, interval_of, own};
use crate::nodes::{Built, Form, NodeKind, Nodes};
use crate::products::{mul_hi_form, mul_lo_form};
use crate::select::select_form;
use crate::sums::lin_form;
use intervals::{between, full, shifted_right};
use std::alloc::{AllocError, Global};

/// The rules alone.
#[tactic(auto, unfolding(crate::specs::Rules::normal_of))]
fn applied<N: Nodes>(alloc: Global, nodes: &N, form: Form) -> Result<Built, AllocError>
    requires { FormFits (N.nodes nodes.now) form }
    ensures { IfOk result (λ built. built ≡ normal_of (N.nodes nodes.now) form) }
{
    match form {
        Form::Const(v) => Ok(Built::Make(constant_node(v))),
        Form::Start(reg) => Ok(own(NodeKind::Start(reg), full())),
        Form::In {
            param,
            word,
            low,
            high,
        } => Ok(own(NodeKind::In { param, word }, between(low, high))),
        Form::Lin { k, terms } => lin_form(alloc, nodes, k, terms.items()),
        Form::Carry(list) => carry_form(alloc, nodes, list.items()),
        Form::Borrow { a, list } => borrow_form(alloc, nodes, a, list.items()),
        Form::Zero(x) => Ok(zero_form(nodes, x)),
        Form::MulLo(a, b) => mul_lo_form(alloc, nodes, a.min(b), a.max(b)),
        Form::MulHi(a, b) => Ok(mul_hi_form(nodes, a.min(b), a.max(b))),
        Form::And(a, b) => Ok(and_form(nodes, a.min(b), a.max(b))),
        Form::Or(a, b) => Ok(or_form(nodes, a.min(b), a.max(b))),
        Form::Xor(a, b) => Ok(xor_form(nodes, a.min(b), a.max(b))),
        Form::Shr { x, k } => Ok(own(
            NodeKind::Shr { x, k },
            shifted_right(interval_of(nodes.node(x)), k),
        )),
        Form::Select { c, x, y } => Ok(select_form(nodes, c, x, y)),
        Form::SetB { v, b } => Ok(own(NodeKind::SetB { v, b }, full())),
    }
}

/// What the rules make of a form over a table. Where `val` gives the numbers of the table the words of sound nodes,
/// the result has the form's word, and a node to be put into the table has that word in its interval. The one error is
/// want of memory.
pub fn normal<N: Nodes>(alloc: Global, nodes: &N, form: Form) -> Result<Built, AllocError>
    requires { FormFits (N.nodes nodes.now) form }
    ensures rules { IfOk result (λ built. built ≡ normal_of (N.nodes nodes.now) form) }
    ensures fits { IfOk result (BuiltFits (N.nodes nodes.now)) }
    ensures value { IfOk result (λ built. (start : Start) (val : ℕ → ℕ) → IsValuation start (N.nodes nodes.now) val
        → IsSound (N.nodes nodes.now) val → Admits start form
        → Stands start val (form_value start val form) built) }
{
    let _count = nodes.count();
    applied(alloc, nodes, form)
}
