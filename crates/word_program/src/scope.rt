ghost use Rattle.std.specs.Prelude.{◌≡◌, ◌++◌, ◌+◌, ◌≤◌, ◌<◌, ◌^◌, [], ◌∷◌, ℕ, length, map, None, IfOk, OnOk};
ghost use Rattle.std.specs.List.{AllByRecursion};
ghost use Rattle.base.specs.declared.limits.TheConstants.{MAX_PARAMS};
ghost use Rattle.word_program.specs.Accepted.{IsParam};
ghost use Rattle.word_program.specs.Rules as spec;
ghost use Rattle.word_program.specs.Values as values;
ghost use Rattle.word_program.specs.Walk.{Meets, MeetsCode, walk, first_code, at, place_in};

use crate::operation::{Op, Operand, Target};
use crate::parameter::Param;
use crate::params::param_named;
use crate::{bits, lookup};
use base::{Items, is_identifier, word};
use std::alloc::{AllocError, Global};
use std::collections::BTreeMap;
use std::marker::Model;
use word_operations::{Kind, needs_bit, needs_shift};
use word_text::{codes, is_unused, is_word_form, starts_with_digit};

/// What stands before an operation: the parameters, the results so far and the operations so far. The
/// index finds a result by its name.
#[derive(Drop)]
pub struct BodyScope<'a> {
    params: &'a [Param],
    names: Vec<&'a str>,
    index: BTreeMap<&'a str, u16>,
    targets: Vec<Target>,
    bits: Vec<bool>,
    ops: Items<Op>,
}

/// Operations, where each of their results goes, and whether it is a bit.
#[derive(Drop)]
pub struct ReadOps {
    pub ops: Items<Op>,
    pub targets: Vec<Target>,
    pub bits: Vec<bool>,
}

impl<'a> Model for BodyScope<'a> {
    ghost use Rattle.std.specs.Prelude.{◌≡◌, ◌≤◌, ℕ, List, length, map};
    ghost use Rattle.std.specs.BTreeMap.{get_by};
    ghost use Rattle.std.specs.Ordering.{nat_cmp};
    ghost use Rattle.std.specs.Cmp.Lexicographic.{slice_cmp};
    ghost use Rattle.std.specs.List.{AllByRecursion};
    ghost use Rattle.base.specs.declared.limits.TheConstants.{MAX_PARAMS};
    ghost use Rattle.word_program.specs.Accepted.{IsParam};
    ghost use Rattle.word_program.specs.Rules.{Scope, value_named};

    ghost Value = { Scope };

    ghost view = { λ s. record {
      params = s.params.now;
      names = map (λ n. n.now) s.names.items;
      targets = s.targets.items;
      bits = s.bits.items;
      ops = s.ops;
    } };

    ghost invariant = { λ s. (length s.params.now ≤ MAX_PARAMS) × (AllByRecursion IsParam s.params.now)
        × ((t : List ℕ) → get_by (λ k. slice_cmp nat_cmp t k.now) s.index ≡ value_named
        (map (λ n. n.now) s.names.items) t) };
}

impl<'a> BodyScope<'a> {
    /// Nothing but the parameters.
    pub fn new(alloc: Global, params: &'a [Param]) -> BodyScope<'a>
        requires few { length params.now ≤ MAX_PARAMS }
        requires params { AllByRecursion IsParam params.now }
        ensures { result ≡ spec.start params.entry.now }
    {
        BodyScope {
            params,
            names: Vec::new(alloc),
            index: BTreeMap::new(alloc),
            targets: Vec::new(alloc),
            bits: Vec::new(alloc),
            ops: Items::new(alloc),
        }
    }

    /// The value number of the result of this name.
    fn value_named(&self, name: &str) -> Option<u16>
        ensures { result ≡ spec.value_named self.now.names name.now }
    {
        self.index.get(name).copied()
    }

    fn named_operand(&self, name: &str) -> Option<Operand>
        ensures { result ≡ spec.named_operand self.now name.now }
    {
        match lookup::scalar_at(self.params, name) {
            Some(operand) => Some(operand),
            None => Some(Operand::Value(self.value_named(name)?)),
        }
    }

    /// The operand that a text is.
    #[tactic(auto, unfolding(crate::specs::Rules::operand_of))]
    fn operand(&self, text: &str) -> Option<Operand>
        ensures { result ≡ spec.operand_of self.now text.now }
    {
        if starts_with_digit(text) {
            return Some(Operand::Literal(word(text.as_bytes())?));
        }
        if is_identifier(text.as_bytes()) {
            return self.named_operand(text);
        }
        lookup::array_operand(self.params, text)
    }

    fn is_bit(&self, operand: Operand) -> bool
        ensures { result ≡ values.is_bit_by self.now.params self.now.bits operand }
    {
        lookup::is_bit_by(self.params, self.bits.as_slice(), operand)
    }

    /// The operand at a place of an operation of this kind, or the code of the first rule that it breaks.
    #[tactic(auto, unfolding(crate::specs::Rules::argument_rules))]
    pub fn argument(&self, kind: Kind, place: usize, text: &str) -> Result<Operand, u8>
        ensures code { MeetsCode result (first_code (spec.argument_rules self.now kind place text.now)) }
        ensures value { IfOk result (λ operand. operand ≡ spec.operand_or (spec.operand_of self.now text.now)) }
    {
        let Some(operand) = self.operand(text) else {
            return Err(if starts_with_digit(text) {
                codes::WORD
            } else {
                codes::OPERAND
            });
        };
        if needs_shift(kind, place) && !lookup::is_shift(operand) {
            return Err(codes::SHIFT);
        }
        if needs_bit(kind, place) && !self.is_bit(operand) {
            return Err(codes::BIT);
        }
        Ok(operand)
    }

    /// Where a result goes, or the code of the first rule that it breaks. It is no earlier result.
    #[tactic(auto, unfolding(crate::specs::Rules::result_rules, crate::specs::Rules::target_of))]
    pub fn result(&self, text: &str) -> Result<Target, u8>
        ensures code { MeetsCode result (first_code (spec.result_rules self.now text.now)) }
        ensures value { IfOk result (λ target. target ≡ spec.target_of self.now.params text.now) }
        ensures new { OnOk result (spec.value_named self.now.names text.now ≡ None) }
    {
        if is_identifier(text.as_bytes()) {
            if param_named(self.params, text).is_some() {
                return Err(codes::REPEATED_NAME);
            }
            if self.value_named(text).is_some() {
                return Err(codes::REPEATED_NAME);
            }
            return Ok(Target::Value);
        }
        if is_unused(text) {
            return Ok(Target::Unused);
        }
        if !is_word_form(text) {
            return Err(codes::NAME);
        }
        let Some(found) = lookup::output_at(self.params, text) else {
            return Err(codes::OUTPUT);
        };
        if lookup::is_written(
            self.targets.as_slice(),
            found.param as usize,
            found.word as usize,
        ) {
            return Err(codes::OUTPUT);
        }
        Ok(Target::Output {
            param: found.param,
            word: found.word,
        })
    }

    /// Puts a result behind those that are there.
    pub fn add(&mut self, text: &'a str, target: Target) -> Result<(), AllocError>
        requires new { spec.value_named self.old.names text.now ≡ None }
        requires target { target ≡ spec.target_of self.old.params text.now }
        requires room { length self.old.names < 2 ^ 16 }
        ensures { OnOk result (self.new ≡ spec.with_result self.old text.entry.now) }
    {
        if !is_identifier(text.as_bytes()) {
            self.targets.push(target)?;
            self.names.push(text)?;
            return Ok(());
        }
        let number = self.names.as_slice().len() as u16;
        self.names.try_reserve(1)?;
        self.targets.push(target)?;
        self.index.insert(text, number)?;
        self.names.push_reserved(text);
        Ok(())
    }

    /// The targets of the results so far.
    pub fn targets(&self) -> &[Target]
        ensures { result.now ≡ self.now.targets }
    {
        self.targets.as_slice()
    }

    /// Puts an operation behind those that are there, and tells which of its results are bits.
    pub fn finish(&mut self, op: Op) -> Result<(), AllocError>
        ensures { OnOk result (self.new ≡ spec.with_op self.old op) }
    {
        bits::push_bits(&mut self.bits, self.params, &op)?;
        self.ops.push(op)?;
        Ok(())
    }

    /// The operations, with the targets and the bits of their results.
    pub fn into_parts(self) -> ReadOps
        ensures ops { result.ops ≡ self.entry.ops }
        ensures targets { result.targets.items ≡ self.entry.targets }
        ensures bits { result.bits.items ≡ self.entry.bits }
    {
        ReadOps {
            ops: self.ops,
            targets: self.targets,
            bits: self.bits,
        }
    }
}
