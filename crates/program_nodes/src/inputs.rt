//! The nodes that stand before the first operation: the starts of the registers, and the input words.

ghost use Rattle.std.specs.Prelude.{◌≡◌, ◌+◌, ◌-◌, ◌*◌, ◌^◌, ◌<◌, ◌≤◌, length, map, slice_index_or, OnOk};
ghost use Rattle.std.specs.List.{AllByRecursion, range_with_len};
ghost use Rattle.base.specs.declared.limits.TheConstants.{MAX_PARAMS};
ghost use Rattle.word_program.specs.Accepted.{IsParam};
ghost use Rattle.word_program.specs.Program as programs;
ghost use Rattle.word_program.specs.Values as values;
ghost use Rattle.terms.specs.declared.nodes.Form.TheVariants as forms;
ghost use Rattle.term_store.specs.Interning.{made_all};
ghost use Rattle.program_nodes.specs.Sources as sources;

use crate::forms::make;
use std::alloc::AllocError;
use term_store::Store;
use terms::Form;
use word_program::{Bounds, Param, is_output};

/// The bounds at a place; every word where there are none.
fn bounds_at(bounds: &[Bounds], word: usize) -> Bounds
    ensures { result ≡ slice_index_or bounds.now word programs.full }
{
    match bounds.get(word) {
        Some(bounds) => *bounds,
        None => Bounds {
            low: 0,
            high: u64::MAX,
        },
    }
}

/// The bounds of a word of a parameter; every word where there is no such word.
fn word_bounds(params: &[Param], param: usize, word: usize) -> Bounds
    ensures { result ≡ values.word_bounds params.now param word }
{
    match params.get(param) {
        Some(param) => bounds_at(param.bounds.items(), word),
        None => Bounds {
            low: 0,
            high: u64::MAX,
        },
    }
}

/// The form of an input word.
pub fn input_form(params: &[Param], param: u8, word: u8) -> Form
    ensures { result ≡ sources.input_form params.now param word }
{
    let bounds = word_bounds(params, param as usize, word as usize);
    Form::In {
        param,
        word,
        low: bounds.low,
        high: bounds.high,
    }
}

/// The nodes of what the sixteen registers hold at the start.
#[tactic(auto, using(crate::proofs::FormSteps::forms_step))]
pub fn start_nodes(store: &mut Store) -> Result<(), AllocError>
    requires { length store.now < 2 ^ 31 }
    ensures { OnOk result (store.new ≡ (made_all store.old (map forms.Start (range_with_len 0 16))).table) }
{
    for reg in 0..16u8 {
        make(store, Form::Start(reg))?;
    }
    Ok(())
}

/// The nodes of the first words of a parameter.
#[tactic(auto, using(crate::proofs::FormSteps::forms_step))]
fn word_nodes(store: &mut Store, params: &[Param], param: u8, count: u8) -> Result<(), AllocError>
    requires { length store.now + count < 2 ^ 31 }
    ensures table { OnOk result (store.new
        ≡ (made_all store.old (map (sources.input_form params.now param) (range_with_len 0 count))).table) }
    ensures few { length store.new ≤ length store.old + count }
{
    for word in 0..count {
        make(store, input_form(params, param, word))?;
    }
    Ok(())
}

/// The nodes of the input words of a parameter.
fn param_nodes(
    store: &mut Store,
    params: &[Param],
    number: u8,
    param: &Param,
) -> Result<(), AllocError>
    requires room { length store.now < 2 ^ 31 - 32 }
    requires param { IsParam param.now }
    ensures table { OnOk result (store.new
        ≡ (made_all store.old (sources.param_forms params.now number param.now)).table) }
    ensures few { length store.new ≤ length store.old + 32 }
{
    if is_output(param.role) {
        return Ok(());
    }
    word_nodes(store, params, number, param.bounds.items().len() as u8)
}

/// The nodes of the input words of all parameters.
#[tactic(auto, using(crate::proofs::FormSteps::inputs_step))]
pub fn input_nodes(store: &mut Store, params: &[Param]) -> Result<(), AllocError>
    requires room { length store.now < 2 ^ 30 }
    requires few { length params.now ≤ MAX_PARAMS }
    requires params { AllByRecursion IsParam params.now }
    ensures { OnOk result (store.new ≡ (made_all store.old (sources.inputs_from params.now 0 params.now)).table) }
{
    let mut number = 0;
    for param in params {
        param_nodes(store, params, number, param)?;
        number += 1;
    }
    Ok(())
}
