//! Which forms may be made over a table.
ghost use Rattle.std.specs.Prelude.{◌<◌, ◌≤◌, length, count_by, IsTrue};
ghost use Rattle.terms.specs.Forms.{FormFits, is_no_bit};
ghost use Rattle.terms.specs.Tables.{AreBelow, AreTermsBelow};

use terms::{Form, Nodes, Term};

fn are_terms_below(terms: &[Term], count: u32) -> bool
    ensures { IsTrue result → AreTermsBelow count terms.now }
{
    terms.iter().all(|term| term.node < count)
}

fn are_below(list: &[u32], count: u32) -> bool
    ensures { IsTrue result → AreBelow count list.now }
{
    list.iter().all(|number| *number < count)
}

// Two nodes, or three of which one is at most 1.
fn is_carry<N: Nodes>(nodes: &N, list: &[u32]) -> bool
    requires { AreBelow (length (N.nodes nodes.now)) list.now }
    ensures least { IsTrue result → 2 ≤ length list.now }
    ensures most { IsTrue result → length list.now ≤ 3 }
    ensures bits { IsTrue result → count_by (is_no_bit (N.nodes nodes.now)) list.now ≤ 2 }
{
    match list {
        [_, _] => true,
        [a, b, c] => nodes.node(*a).high <= 1
            || nodes.node(*b).high <= 1
            || nodes.node(*c).high <= 1,
        _ => false,
    }
}

/// Whether the form has numbers of the table alone, and words, counts and lists in their ranges.
pub fn fits<N: Nodes>(nodes: &N, form: &Form) -> bool
    ensures { IsTrue result → FormFits (N.nodes nodes.now) form.now }
{
    let count = nodes.count();
    match form {
        Form::Const(v) => {
            let _word = *v;
            true
        }
        Form::Start(reg) => *reg < 16,
        Form::In { high, .. } => {
            let _word = *high;
            true
        }
        Form::Lin { terms, .. } => {
            are_terms_below(terms.items(), count) && terms.items().len() <= 16
        }
        Form::Carry(list) => are_below(list.items(), count) && is_carry(nodes, list.items()),
        Form::Borrow { a, list } => {
            *a < count
                && are_below(list.items(), count)
                && 1 <= list.items().len()
                && list.items().len() <= 2
        }
        Form::Zero(x) => *x < count,
        Form::MulLo(a, b) => *a < count && *b < count,
        Form::MulHi(a, b) => *a < count && *b < count,
        Form::And(a, b) => *a < count && *b < count,
        Form::Or(a, b) => *a < count && *b < count,
        Form::Xor(a, b) => *a < count && *b < count,
        Form::Shr { x, k } => *x < count && 1 <= *k && *k <= 63,
        Form::Select { c, x, y } => *c < count && *x < count && *y < count,
        Form::SetB { v, b } => *v < count && *b < count,
    }
}
