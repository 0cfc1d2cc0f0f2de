ghost use Rattle.std.specs.Prelude.{◌≡◌, ◌++◌, ◌+◌, ◌≤◌, ◌<◌, ℕ, length, option_map, IfOk, IfSome, OnOk};
ghost use Rattle.std.specs.List.{AllByRecursion};
ghost use Rattle.std.specs.Option.{option_map_or};
ghost use Rattle.base.specs.declared.limits.TheConstants.{MAX_ARRAY_WORDS, MAX_PARAMS};
ghost use Rattle.word_program.specs.Accepted.{IsParam};
ghost use Rattle.word_program.specs.Rules as spec;
ghost use Rattle.word_program.specs.Walk.{Meets, walk, place_in};

use crate::parameter::{Bounds, BoundsList, Param, Role};
use base::{Items, Text, is_identifier, word};
use std::alloc::{AllocError, Global};
use word_text::{
    Place, ProgramFault, RawParam, Section, Texts, array_words, codes, index_below, word_parts,
};

/// What a datatype says: the role, how many words, and the greatest value of a word.
#[derive(Clone, Copy)]
pub struct Datatype {
    pub role: Role,
    pub words: u8,
    pub most: u64,
}

/// A word of a parameter by its number, counted from 0, and the parameter's role.
#[derive(Clone, Copy)]
pub struct ParamWord {
    pub role: Role,
    pub param: u8,
    pub word: u8,
}

/// The fault that a want of memory is.
pub fn memory(_: AllocError) -> ProgramFault
    ensures { result ≡ ProgramFault.Memory }
{
    ProgramFault::Memory
}

/// The fault of a rule at a place.
pub fn rule(code: u8, section: Section, item: u32, inner: u32) -> ProgramFault
    ensures { result ≡ ProgramFault.Rule code (place_in section item inner) }
{
    ProgramFault::Rule {
        code,
        place: Place {
            section,
            item,
            inner,
        },
    }
}

fn array_of(role: Role, text: &str) -> Option<Datatype>
    ensures value { result ≡ spec.array_of role text.now }
    ensures within { IfSome result (λ d. d.words ≤ MAX_ARRAY_WORDS) }
{
    let words = array_words(text)?;
    Some(Datatype {
        role,
        words,
        most: u64::MAX,
    })
}

fn scalar_named(text: &str) -> Option<Datatype>
    ensures value { result ≡ spec.scalar_named text.now }
    ensures within { IfSome result (λ d. d.words ≤ MAX_ARRAY_WORDS) }
{
    let most = if text == "u64" {
        u64::MAX
    } else if text == "u1" {
        1
    } else {
        return None;
    };
    Some(Datatype {
        role: Role::InputScalar,
        words: 1,
        most,
    })
}

/// What a datatype of a return or an argument says.
fn datatype_of(section: Section, text: &str) -> Option<Datatype>
    ensures value { result ≡ spec.datatype_of section text.now }
    ensures within { IfSome result (λ d. d.words ≤ MAX_ARRAY_WORDS) }
{
    match section {
        Section::Returns => array_of(Role::Output, text),
        Section::Arguments => match scalar_named(text) {
            Some(datatype) => Some(datatype),
            None => array_of(Role::InputArray, text),
        },
        Section::Top | Section::Body => None,
    }
}

fn limit_at(missing: u64, texts: Option<&Texts>, number: usize) -> Option<u64>
    ensures { result ≡ spec.limit_at missing (option_map (λ t. t.now) texts.entry) number }
{
    match texts {
        None => Some(missing),
        Some(texts) => word(texts.items().get(number)?.as_str().as_bytes()),
    }
}

/// The bounds of the word with this number.
#[tactic(auto, unfolding(crate::specs::Rules::bound_at))]
fn bound_at(datatype: Datatype, param: &RawParam, number: usize) -> Option<Bounds>
    ensures { result ≡ spec.bound_at datatype param.now number }
{
    let low = limit_at(0, param.low.as_ref(), number)?;
    let high = limit_at(datatype.most, param.high.as_ref(), number)?;
    if low <= high && high <= datatype.most {
        Some(Bounds { low, high })
    } else {
        None
    }
}

fn has_length(words: u8, texts: Option<&Texts>) -> bool
    ensures { result ≡ spec.has_length words (option_map (λ t. t.now) texts.entry) }
{
    match texts {
        None => true,
        Some(texts) => texts.items().len() == words as usize,
    }
}

/// The bounds of a parameter of this datatype.
#[tactic(auto, unfolding(crate::specs::Rules::bounds_of))]
fn bounds_of(
    alloc: Global,
    datatype: Datatype,
    param: &RawParam,
) -> Result<Option<BoundsList>, AllocError>
    ensures { IfOk result (λ bounds. bounds ≡ spec.bounds_of datatype param.entry.now) }
{
    if !has_length(datatype.words, param.low.as_ref()) {
        return Ok(None);
    }
    if !has_length(datatype.words, param.high.as_ref()) {
        return Ok(None);
    }
    let mut bounds = Items::new(alloc);
    for number in 0..datatype.words {
        let Some(bound) = bound_at(datatype, param, number as usize) else {
            return Ok(None);
        };
        bounds.push(bound)?;
    }
    Ok(Some(bounds))
}

/// The number of the parameter of this name.
pub fn param_named(params: &[Param], name: &str) -> Option<usize>
    ensures value { result ≡ spec.param_named params.now name.now }
    ensures within { IfSome result (λ n. n < length params.now) }
{
    params.iter().position(|param| param.name.as_str() == name)
}

/// The word `name[index]` of a parameter.
#[tactic(auto, using(crate::proofs::LookupLemmas::few_words), unfolding(crate::specs::Rules::word_at))]
pub fn word_at(params: &[Param], text: &str) -> Option<ParamWord>
    requires few { length params.now ≤ MAX_PARAMS }
    requires params { AllByRecursion IsParam params.now }
    ensures { result ≡ spec.word_at params.now text.now }
{
    let (name, index) = word_parts(text)?;
    let number = param_named(params, name)?;
    let param = params.get(number)?;
    let word = index_below(index, param.bounds.items().len())?;
    Some(ParamWord {
        role: param.role,
        param: number as u8,
        word: word as u8,
    })
}

/// The parameter that its parts are, where it stands behind these.
#[tactic(auto, unfolding(crate::specs::Rules::parameter_rules, crate::specs::Rules::param_of))]
fn parameter(
    alloc: Global,
    section: Section,
    item: u32,
    params: &[Param],
    raw: &RawParam,
) -> Result<Param, ProgramFault>
    requires { length params.now ≤ MAX_PARAMS }
    ensures fault { Meets result (spec.parameter_fault section params.entry.now item raw.entry.now) }
    ensures value { IfOk result (λ param. param ≡ spec.param_of section raw.entry.now) }
{
    if !is_identifier(raw.name.as_str().as_bytes()) {
        return Err(rule(codes::NAME, section, item, 0));
    }
    let Some(datatype) = datatype_of(section, raw.datatype.as_str()) else {
        return Err(rule(codes::DATATYPE, section, item, 0));
    };
    let Some(bounds) = bounds_of(alloc, datatype, raw).map_err(memory)? else {
        return Err(rule(codes::BOUNDS, section, item, 0));
    };
    if param_named(params, raw.name.as_str()).is_some() {
        return Err(rule(codes::REPEATED_NAME, section, item, 0));
    }
    let name = Text::from_str(alloc, raw.name.as_str()).map_err(memory)?;
    Ok(Param {
        name,
        role: datatype.role,
        bounds,
    })
}

/// Puts the parameters of a section behind those that are there.
pub fn parameters(
    alloc: Global,
    section: Section,
    params: &mut Items<Param>,
    raws: &[RawParam],
) -> Result<(), ProgramFault>
    requires { length params.old + length raws.now ≤ MAX_PARAMS }
    ensures fault { Meets result (walk (spec.parameter_fault section)
        (spec.with_param section) params.old 0 raws.entry.now) }
    ensures state { OnOk result (params.new ≡ spec.parameters_in section params.old raws.entry.now) }
    ensures count { OnOk result (length params.new ≡ length params.old + length raws.entry.now) }
{
    let mut item = 0;
    for raw in raws {
        let param = parameter(alloc, section, item, params.items(), raw)?;
        params.push(param).map_err(memory)?;
        item += 1;
    }
    Ok(())
}
