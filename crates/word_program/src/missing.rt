ghost use Rattle.std.specs.Prelude.{◌≡◌, ◌≤◌, length};
ghost use Rattle.std.specs.List.{AllByRecursion};
ghost use Rattle.base.specs.declared.limits.TheConstants.{MAX_ARRAY_WORDS, MAX_PARAMS};
ghost use Rattle.word_program.specs.Rules as spec;
ghost use Rattle.word_program.specs.Accepted.{IsParam};
ghost use Rattle.word_program.specs.Walk.{Meets};

use crate::lookup::{is_output, is_written};
use crate::operation::Target;
use crate::parameter::Param;
use crate::params::rule;
use word_text::{ProgramFault, Section, codes};

/// The first word of an output parameter that is never written.
#[tactic(auto, using(crate::proofs::MissingLemmas::missing_step))]
fn missing_in(targets: &[Target], number: u32, param: &Param) -> Result<(), ProgramFault>
    requires { length param.now.bounds ≤ MAX_ARRAY_WORDS }
    ensures { Meets result (spec.missing_in targets.now tt number param.now) }
{
    if !is_output(param.role) {
        return Ok(());
    }
    let mut word = 0;
    for _bound in param.bounds.items() {
        if !is_written(targets, number as usize, word as usize) {
            return Err(rule(codes::OUTPUT, Section::Returns, number, word));
        }
        word += 1;
    }
    Ok(())
}

/// The first output word that is never written.
#[tactic(auto, unfolding(crate::specs::Rules::missing))]
pub fn missing(params: &[Param], targets: &[Target]) -> Result<(), ProgramFault>
    requires few { length params.now ≤ MAX_PARAMS }
    requires params { AllByRecursion IsParam params.now }
    ensures { Meets result (spec.missing params.now targets.now) }
{
    let mut number = 0;
    for param in params {
        missing_in(targets, number, param)?;
        number += 1;
    }
    Ok(())
}
