ghost use Rattle.std.specs.Prelude.{◌≡◌, ◌≤◌, ◌<◌, ◌*◌, ◌+◌, length, take, sum_by, IfOk, IfSome};
ghost use Rattle.std.specs.List.{AllByRecursion};
ghost use Rattle.base.specs.declared.limits.TheConstants.{MAX_ARRAY_WORDS, MAX_PARAMS};
ghost use Rattle.word_program.specs.Accepted.{IsParam};
ghost use Rattle.word_program.specs.Evaluates as spec;
ghost use Rattle.word_program.specs.Values as values;

use crate::lookup::is_output;
use crate::parameter::{Bounds, Param};
use std::alloc::{AllocError, Global};

/// How many words of a parameter are inputs.
fn input_words(param: &Param) -> usize
    requires { IsParam param.now }
    ensures count { result ≡ values.input_words param.now }
    ensures limit { result ≤ MAX_ARRAY_WORDS }
{
    if is_output(param.role) {
        0
    } else {
        param.bounds.items().len()
    }
}

/// How many input words stand before those of a parameter.
pub fn offset_of(params: &[Param], param: usize) -> usize
    requires few { length params.now ≤ MAX_PARAMS }
    requires params { AllByRecursion IsParam params.now }
    ensures count { result ≡ sum_by values.input_words (take param params.now) }
    ensures limit { result ≤ MAX_PARAMS * MAX_ARRAY_WORDS }
{
    let mut offset = 0;
    let mut number = 0;
    for found in params {
        if number == param {
            return offset;
        }
        offset += input_words(found);
        number += 1;
    }
    offset
}

/// How many words the parameters write.
pub fn output_count(params: &[Param]) -> u32
    requires few { length params.now ≤ MAX_PARAMS }
    requires params { AllByRecursion IsParam params.now }
    ensures { result ≡ values.output_count params.now }
{
    let mut count = 0;
    for param in params {
        if is_output(param.role) {
            count += param.bounds.items().len() as u32;
        }
    }
    count
}

/// The bounds of the input words in order.
pub fn input_bounds(alloc: Global, params: &[Param]) -> Result<Vec<Bounds>, AllocError>
    ensures { IfOk result (λ bounds. bounds.items ≡ values.input_bounds params.entry.now) }
{
    let mut bounds = Vec::new(alloc);
    for param in params {
        if !is_output(param.role) {
            bounds.extend_from_slice(param.bounds.items())?;
        }
    }
    Ok(bounds)
}

fn is_within(bounds: Bounds, word: u64) -> bool
    ensures { result ≡ spec.is_within bounds word }
{
    bounds.low <= word && word <= bounds.high
}

/// The first word outside its bounds.
#[tactic(auto, using(crate::proofs::InputLemmas::outside_step))]
pub fn outside(inputs: &[u64], bounds: &[Bounds]) -> Option<usize>
    requires { length inputs.now ≡ length bounds.now }
    ensures value { result ≡ spec.outside 0 inputs.now bounds.now }
    ensures within { IfSome result (λ n. n < length inputs.now) }
{
    let mut number = 0;
    for word in inputs {
        if !is_within(bounds[number], *word) {
            return Some(number);
        }
        number += 1;
    }
    None
}
