//! The nodes of an operation's results.

ghost use Rattle.std.specs.Prelude.{◌≡◌, ◌+◌, ◌-◌, ◌^◌, ◌<◌, ◌≤◌, ◌++◌, [], ◌∷◌, length, OnOk};
ghost use Rattle.word_operations.specs.declared.kind.Kind.TheVariants as kinds;
ghost use Rattle.word_program.specs.Accepted.{HasShift};
ghost use Rattle.terms.specs.declared.nodes.Form.TheVariants as forms;
ghost use Rattle.terms.specs.Forms.{FormFits};
ghost use Rattle.term_store.specs.Interning.{made, made_all};
ghost use Rattle.program_nodes.specs.Operands.{AreOperandNodes};
ghost use Rattle.program_nodes.specs.Sources.{results_made};
ghost use Rattle.program_nodes.specs.Terms.{term};
ghost use Rattle.program_nodes.specs.Terms.{sum};

use crate::forms::{borrow2, carry3, lin1, make, minus, plus, sum2, sum3, times};
use std::alloc::{AllocError, Global};
use term_store::Store;
use terms::{Form, Term};
use word_program::Kind;

/// Puts a number at the end of a list.
fn push_number(numbers: &mut Vec<u32>, number: u32) -> Result<(), AllocError>
    ensures { OnOk result (numbers.new.items ≡ numbers.old.items ++ number ∷ []) }
{
    numbers.push(number)?;
    Ok(())
}

/// Makes a form, and puts its number at the end of a list.
pub fn push_made(store: &mut Store, numbers: &mut Vec<u32>, form: Form) -> Result<(), AllocError>
    requires room { length store.now < 2 ^ 32 - 1 }
    requires fits { FormFits store.now form }
    ensures table { OnOk result (store.new ≡ (made store.old form).table) }
    ensures number { OnOk result (numbers.new.items ≡ numbers.old.items ++ (made store.old form).number ∷ []) }
{
    let number = make(store, form)?;
    push_number(numbers, number)
}

/// Makes two forms, and puts their numbers at the end of a list.
#[tactic(auto, using(term_store::proofs::Made::made_most))]
fn push_two(
    store: &mut Store,
    numbers: &mut Vec<u32>,
    first: Form,
    second: Form,
) -> Result<(), AllocError>
    requires room { length store.now < 2 ^ 32 - 2 }
    requires first { FormFits store.now first }
    requires second { FormFits store.now second }
    ensures table { OnOk result (store.new ≡ (made_all store.old (first ∷ second ∷ [])).table) }
    ensures numbers { OnOk result (numbers.new.items ≡ numbers.old.items
        ++ (made_all store.old (first ∷ second ∷ [])).numbers) }
{
    push_made(store, numbers, first)?;
    push_made(store, numbers, second)
}

/// Of `c + a + b`: the sum modulo 2^64, and the carry.
#[tactic(auto, using(crate::proofs::FormsFit::three_fit, crate::proofs::FormsFit::carry_first_fits))]
fn push_carry(
    alloc: Global,
    store: &mut Store,
    numbers: &mut Vec<u32>,
    c: u32,
    a: u32,
    b: u32,
) -> Result<(), AllocError>
    requires room { length store.now < 2 ^ 32 - 2 }
    requires nodes { AreOperandNodes store.now kinds.AddCarry c a b }
    ensures table { OnOk result (store.new ≡ (results_made kinds.AddCarry store.old c a b).table) }
    ensures numbers { OnOk result (numbers.new.items ≡ numbers.old.items
        ++ (results_made kinds.AddCarry store.old c a b).numbers) }
{
    let sum = sum3(alloc, plus(c), plus(a), plus(b))?;
    let carry = carry3(alloc, c, a, b)?;
    push_two(store, numbers, sum, carry)
}

/// Of `a - b - c`: the difference modulo 2^64, and the borrow.
#[tactic(auto, using(crate::proofs::FormsFit::three_fit, crate::proofs::FormsFit::borrow2_fits))]
fn push_borrow(
    alloc: Global,
    store: &mut Store,
    numbers: &mut Vec<u32>,
    c: u32,
    a: u32,
    b: u32,
) -> Result<(), AllocError>
    requires room { length store.now < 2 ^ 32 - 2 }
    requires nodes { AreOperandNodes store.now kinds.SubBorrow c a b }
    ensures table { OnOk result (store.new ≡ (results_made kinds.SubBorrow store.old c a b).table) }
    ensures numbers { OnOk result (numbers.new.items ≡ numbers.old.items
        ++ (results_made kinds.SubBorrow store.old c a b).numbers) }
{
    let difference = sum3(alloc, plus(a), minus(b), minus(c))?;
    let borrow = borrow2(alloc, a, b, c)?;
    push_two(store, numbers, difference, borrow)
}

/// Of two words as one, `lo` and `hi`: the low word, shifted right.
#[tactic(auto, using(crate::proofs::FormsFit::shift_fits))]
fn push_shifted(
    alloc: Global,
    store: &mut Store,
    numbers: &mut Vec<u32>,
    k: u8,
    lo: u32,
    hi: u32,
) -> Result<(), AllocError>
    requires room { length store.now < 2 ^ 32 - 3 }
    requires count { HasShift (kinds.Shrd k) }
    requires lo { lo < length store.now }
    requires hi { hi < length store.now }
    ensures table { OnOk result (store.new ≡ (results_made (kinds.Shrd k) store.old lo hi 0).table) }
    ensures numbers { OnOk result (numbers.new.items ≡ numbers.old.items
        ++ (results_made (kinds.Shrd k) store.old lo hi 0).numbers) }
{
    let low = make(store, Form::Shr { x: lo, k })?;
    let part = lin1(alloc, 0, times(1 << (64 - k), hi))?;
    let high = make(store, part)?;
    let sum = sum2(alloc, plus(low), plus(high))?;
    push_made(store, numbers, sum)
}

/// Makes the sum of two terms, and puts its number at the end of a list.
#[tactic(auto, using(crate::proofs::FormsFit::two_fit))]
fn push_sum(
    alloc: Global,
    store: &mut Store,
    numbers: &mut Vec<u32>,
    a: Term,
    b: Term,
) -> Result<(), AllocError>
    requires room { length store.now < 2 ^ 32 - 1 }
    requires first { a.node < length store.now }
    requires second { b.node < length store.now }
    ensures table { OnOk result (store.new ≡ (made store.old (sum (a ∷ b ∷ []))).table) }
    ensures numbers { OnOk result (numbers.new.items ≡ numbers.old.items
        ++ (made store.old (sum (a ∷ b ∷ []))).number ∷ []) }
{
    let sum = sum2(alloc, a, b)?;
    push_made(store, numbers, sum)
}

/// Makes a constant and a term, and puts its number at the end of a list.
#[tactic(auto, using(crate::proofs::FormsFit::one_fits))]
fn push_lin(
    alloc: Global,
    store: &mut Store,
    numbers: &mut Vec<u32>,
    k: u64,
    a: Term,
) -> Result<(), AllocError>
    requires room { length store.now < 2 ^ 32 - 1 }
    requires node { a.node < length store.now }
    ensures table { OnOk result (store.new ≡ (made store.old (forms.Lin k (a ∷ []))).table) }
    ensures numbers { OnOk result (numbers.new.items ≡ numbers.old.items
        ++ (made store.old (forms.Lin k (a ∷ []))).number ∷ []) }
{
    let form = lin1(alloc, k, a)?;
    push_made(store, numbers, form)
}

/// Makes the nodes of the results of an operation on nodes, and puts their numbers at the end of a list.
pub fn push_results(
    alloc: Global,
    store: &mut Store,
    numbers: &mut Vec<u32>,
    kind: Kind,
    a: u32,
    b: u32,
    c: u32,
) -> Result<(), AllocError>
    requires room { length store.now < 2 ^ 32 - 3 }
    requires count { HasShift kind }
    requires nodes { AreOperandNodes store.now kind a b c }
    ensures table { OnOk result (store.new ≡ (results_made kind store.old a b c).table) }
    ensures numbers { OnOk result (numbers.new.items ≡ numbers.old.items
        ++ (results_made kind store.old a b c).numbers) }
{
    match kind {
        Kind::AddCarry => push_carry(alloc, store, numbers, a, b, c),
        Kind::SubBorrow => push_borrow(alloc, store, numbers, a, b, c),
        Kind::MulX => push_two(store, numbers, Form::MulLo(a, b), Form::MulHi(a, b)),
        Kind::CMov => push_made(store, numbers, Form::Select { c: a, x: b, y: c }),
        Kind::Add => push_sum(alloc, store, numbers, plus(a), plus(b)),
        Kind::Sub => push_sum(alloc, store, numbers, plus(a), minus(b)),
        Kind::Mul => push_made(store, numbers, Form::MulLo(a, b)),
        Kind::And => push_made(store, numbers, Form::And(a, b)),
        Kind::Or => push_made(store, numbers, Form::Or(a, b)),
        Kind::Xor => push_made(store, numbers, Form::Xor(a, b)),
        Kind::Not => push_lin(alloc, store, numbers, u64::MAX, minus(a)),
        Kind::Copy => push_number(numbers, a),
        Kind::Shl(k) => push_lin(alloc, store, numbers, 0, times(1 << k, a)),
        Kind::Shr(k) => push_made(store, numbers, Form::Shr { x: a, k }),
        Kind::Shrd(k) => push_shifted(alloc, store, numbers, k, a, b),
    }
}
