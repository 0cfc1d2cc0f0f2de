ghost use Rattle.std.specs.Prelude.{◌≡◌, ◌<◌, ◌≤◌, length};
ghost use Rattle.std.specs.List.{AllByRecursion, list_any};
ghost use Rattle.base.specs.declared.limits.TheConstants.{MAX_PARAMS};
ghost use Rattle.word_program.specs.Accepted.{IsParam};
ghost use Rattle.word_program.specs.Rules as spec;
ghost use Rattle.word_program.specs.Values as values;

use crate::operation::{Operand, Target};
use crate::parameter::{Bounds, Param, Role};
use crate::params::{ParamWord, param_named, word_at};

/// Whether words of this role are written.
pub fn is_output(role: Role) -> bool
    ensures { result ≡ values.is_output role }
{
    matches!(role, Role::Output)
}

/// Whether words of this role are read from an array.
pub fn is_input_array(role: Role) -> bool
    ensures { result ≡ values.is_input_array role }
{
    matches!(role, Role::InputArray)
}

fn is_scalar(role: Role) -> bool
    ensures { result ≡ values.is_scalar role }
{
    matches!(role, Role::InputScalar)
}

/// The scalar of this name.
#[tactic(auto, unfolding(crate::specs::Rules::scalar_at))]
pub fn scalar_at(params: &[Param], name: &str) -> Option<Operand>
    requires { length params.now ≤ MAX_PARAMS }
    ensures { result ≡ spec.scalar_at params.now name.now }
{
    let number = param_named(params, name)?;
    let param = params.get(number)?;
    if is_scalar(param.role) {
        Some(Operand::Input {
            param: number as u8,
            word: 0,
        })
    } else {
        None
    }
}

/// The word of an input array that a text is.
#[tactic(auto, unfolding(crate::specs::Rules::array_operand))]
pub fn array_operand(params: &[Param], text: &str) -> Option<Operand>
    requires few { length params.now ≤ MAX_PARAMS }
    requires params { AllByRecursion IsParam params.now }
    ensures { result ≡ spec.array_operand params.now text.now }
{
    let found = word_at(params, text)?;
    if is_input_array(found.role) {
        Some(Operand::Input {
            param: found.param,
            word: found.word,
        })
    } else {
        None
    }
}

/// The output word that a text is.
#[tactic(auto, unfolding(crate::specs::Rules::output_at))]
pub fn output_at(params: &[Param], text: &str) -> Option<ParamWord>
    requires few { length params.now ≤ MAX_PARAMS }
    requires params { AllByRecursion IsParam params.now }
    ensures { result ≡ spec.output_at params.now text.now }
{
    let found = word_at(params, text)?;
    if is_output(found.role) {
        Some(found)
    } else {
        None
    }
}

/// Whether the target is this output word.
pub fn is_at(param: usize, word: usize, target: Target) -> bool
    ensures { result ≡ values.is_at param word target }
{
    match target {
        Target::Value | Target::Unused => false,
        Target::Output { param: q, word: n } => q as usize == param && n as usize == word,
    }
}

/// Whether one of the targets is this output word.
pub fn is_written(targets: &[Target], param: usize, word: usize) -> bool
    ensures { result ≡ spec.is_written targets.now param word }
{
    targets.iter().any(|target| is_at(param, word, *target))
}

/// Whether the operand is a shift count, a literal from 1 to 63.
pub fn is_shift(operand: Operand) -> bool
    ensures { result ≡ spec.is_shift operand }
{
    match operand {
        Operand::Literal(number) => 1 <= number && number <= 63,
        Operand::Input { .. } | Operand::Value(_) => false,
    }
}

/// The bounds of a word of a parameter.
pub fn word_bounds(params: &[Param], param: usize, word: usize) -> Bounds
    ensures { result ≡ values.word_bounds params.now param word }
{
    let full = Bounds {
        low: 0,
        high: u64::MAX,
    };
    match params.get(param) {
        Some(found) => found.bounds.items().get(word).copied().unwrap_or(full),
        None => full,
    }
}

/// Whether the operand is a bit, where these of the values so far are.
pub fn is_bit_by(params: &[Param], bits: &[bool], operand: Operand) -> bool
    ensures { result ≡ values.is_bit_by params.now bits.now operand }
{
    match operand {
        Operand::Literal(number) => number <= 1,
        Operand::Input { param, word } => {
            word_bounds(params, param as usize, word as usize).high <= 1
        }
        Operand::Value(number) => bits.get(number as usize).copied().unwrap_or(false),
    }
}
