//! Forms, as programs and instructions need them, and how they are made.

ghost use Rattle.std.specs.Prelude.{◌≡◌, ◌+◌, ◌-◌, ◌^◌, ◌<◌, ◌≤◌, [], ◌∷◌, length, IfOk, OnErr};
ghost use Rattle.terms.specs.declared.nodes.Form.TheVariants as forms;
ghost use Rattle.terms.specs.Forms.{FormFits};
ghost use Rattle.terms.specs.Tables.{Prefix};
ghost use Rattle.term_store.specs.Interning.{made};
ghost use Rattle.program_nodes.specs.Terms as linear;

use std::alloc::{AllocError, Global};
use term_store::Interner;
use terms::{Form, Numbers, Term, Terms};

/// The number of what the rules make of a form, interned.
#[tactic(auto, using(crate::proofs::FormsFit::making))]
pub fn make<T: Interner>(store: &mut T, form: Form) -> Result<u32, AllocError>
    requires room { length (T.nodes store.now) < 2 ^ 32 - 1 }
    requires fits { FormFits (T.nodes store.now) form }
    ensures ok { IfOk result (λ number. record { table = T.nodes store.new; number = number }
        ≡ made (T.nodes store.old) form) }
    ensures part { OnErr result (Prefix (T.nodes store.new) (made (T.nodes store.old) form).table) }
    ensures inside { IfOk result (λ number. number < length (T.nodes store.new)) }
    ensures grows { Prefix (T.nodes store.old) (T.nodes store.new) }
    ensures most { length (T.nodes store.new) ≤ length (T.nodes store.old) + 1 }
    ensures fixed { T.fixed store.new ≡ T.fixed store.old }
{
    let _count = store.count();
    store.make(form)
}

/// A node so many times.
pub fn times(times: u64, node: u32) -> Term
    ensures { result ≡ linear.term times node }
{
    Term { times, node }
}

/// A node once.
pub fn plus(node: u32) -> Term
    ensures { result ≡ linear.plus node }
{
    Term { times: 1, node }
}

/// A node as many times as -1 in two's complement.
pub fn minus(node: u32) -> Term
    ensures { result ≡ linear.minus node }
{
    Term {
        times: u64::MAX,
        node,
    }
}

/// A constant and a term.
pub fn lin1(alloc: Global, k: u64, a: Term) -> Result<Form, AllocError>
    ensures { IfOk result (λ form. form ≡ forms.Lin k (a ∷ [])) }
{
    let terms = Terms::from_vec(vec![in alloc; a]?);
    Ok(Form::Lin { k, terms })
}

/// The sum of two terms.
pub fn sum2(alloc: Global, a: Term, b: Term) -> Result<Form, AllocError>
    ensures { IfOk result (λ form. form ≡ linear.sum (a ∷ b ∷ [])) }
{
    let terms = Terms::from_vec(vec![in alloc; a, b]?);
    Ok(Form::Lin { k: 0, terms })
}

/// The sum of three terms.
pub fn sum3(alloc: Global, a: Term, b: Term, c: Term) -> Result<Form, AllocError>
    ensures { IfOk result (λ form. form ≡ linear.sum (a ∷ b ∷ c ∷ [])) }
{
    let terms = Terms::from_vec(vec![in alloc; a, b, c]?);
    Ok(Form::Lin { k: 0, terms })
}

/// The carry of two nodes.
pub fn carry2(alloc: Global, a: u32, b: u32) -> Result<Form, AllocError>
    ensures { IfOk result (λ form. form ≡ forms.Carry (a ∷ b ∷ [])) }
{
    Ok(Form::Carry(Numbers::from_vec(vec![in alloc; a, b]?)))
}

/// The carry of three nodes.
pub fn carry3(alloc: Global, a: u32, b: u32, c: u32) -> Result<Form, AllocError>
    ensures { IfOk result (λ form. form ≡ forms.Carry (a ∷ b ∷ c ∷ [])) }
{
    Ok(Form::Carry(Numbers::from_vec(vec![in alloc; a, b, c]?)))
}

/// The borrow of a node from another.
pub fn borrow1(alloc: Global, a: u32, b: u32) -> Result<Form, AllocError>
    ensures { IfOk result (λ form. form ≡ forms.Borrow a (b ∷ [])) }
{
    let list = Numbers::from_vec(vec![in alloc; b]?);
    Ok(Form::Borrow { a, list })
}

/// The borrow of two nodes from another.
pub fn borrow2(alloc: Global, a: u32, b: u32, c: u32) -> Result<Form, AllocError>
    ensures { IfOk result (λ form. form ≡ forms.Borrow a (b ∷ c ∷ [])) }
{
    let list = Numbers::from_vec(vec![in alloc; b, c]?);
    Ok(Form::Borrow { a, list })
}
