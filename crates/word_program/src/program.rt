ghost use Rattle.std.specs.Prelude.{◌≡◌, ◌<◌, ◌≤◌, ◌+◌, ◌*◌, None, Decides, IfOk, IfErr, OnOk, length, option_map};
ghost use Rattle.std.specs.Prelude.{sum_by, take};
ghost use Rattle.base.specs.declared.limits.TheConstants.{MAX_ARRAY_WORDS};
ghost use Rattle.word_program.specs.Accepted.{IsAccepted, IsKept, IsOfParts};
ghost use Rattle.word_program.specs.Rules.{first_fault, is_overlap_if_there, program_of, top_rules};
ghost use Rattle.word_program.specs.Values as values;
ghost use Rattle.word_program.specs.Walk.{IsFault, Meets, at, place_in};

use crate::body::read_body;
use crate::inputs::{offset_of, output_count};
use crate::lookup;
use crate::missing::missing;
use crate::operation::{Op, Operand, Target};
use crate::parameter::Param;
use crate::params::{memory, parameters, rule};
use base::{Items, MAX_OPERATIONS, MAX_PARAMS, Text, is_identifier};
use std::alloc::Global;
use std::marker::Model;
use word_text::{ProgramFault, RawProgram, Section, codes, is_overlap, may_overlap};

/// A program that the rules accept. Contracts see it as a `Source`: its name, its parameters, the
/// returns before the arguments, its operations in order, and whether outputs may overlap inputs.
#[derive(Drop)]
pub struct Program {
    name: Text,
    params: Items<Param>,
    ops: Items<Op>,
    overlap: bool,
    targets: Vec<Target>,
    bits: Vec<bool>,
}

impl Model for Program {
    ghost use Rattle.word_program.specs.Program.{Source};

    ghost Value = { Source };

    ghost view = { λ p. record { name = p.name; params = p.params; ops = p.ops; overlap = p.overlap } };

    ghost use Rattle.word_program.specs.Accepted.{IsKept};

    ghost invariant = { λ p. IsKept (record { name = p.name; params = p.params; ops = p.ops; overlap = p.overlap })
        p.targets.items p.bits.items };
}

fn is_overlap_if_there(text: Option<&Text>) -> bool
    ensures { result ≡ is_overlap_if_there (option_map (λ t. t.now) text.entry) }
{
    match text {
        None => true,
        Some(text) => is_overlap(text.as_str()),
    }
}

/// The rules of the program as a whole.
#[tactic(auto, unfolding(crate::specs::Rules::top_rules))]
fn top(parts: &RawProgram) -> Result<(), ProgramFault>
    ensures fault { Meets result (at (place_in Section.Top 0 0) (top_rules parts.now)) }
    ensures few { OnOk result (length parts.now.returns + length parts.now.arguments ≤ MAX_PARAMS) }
    ensures short { OnOk result (length parts.now.body ≤ MAX_OPERATIONS) }
{
    if !is_overlap_if_there(parts.overlap.as_ref()) {
        return Err(rule(codes::SHAPE, Section::Top, 0, 0));
    }
    if !is_identifier(parts.name.as_str().as_bytes()) {
        return Err(rule(codes::NAME, Section::Top, 0, 0));
    }
    if MAX_PARAMS < parts.returns.items().len() + parts.arguments.items().len() {
        return Err(rule(codes::PARAMETER_COUNT, Section::Top, 0, 0));
    }
    if MAX_OPERATIONS < parts.body.items().len() {
        return Err(rule(codes::OPERATION_COUNT, Section::Top, 0, 0));
    }
    if parts.returns.items().len() == 0 {
        return Err(rule(codes::NO_RETURN, Section::Top, 0, 0));
    }
    Ok(())
}

impl Program {
    /// The program that the parts are. Where they break a rule, the fault is that of the first one
    /// that they break, else it is want of memory.
    #[tactic(auto, unfolding(crate::specs::Rules::first_fault, crate::specs::Rules::program_of))]
    pub fn new(alloc: Global, parts: &RawProgram) -> Result<Program, ProgramFault>
        ensures accepted { OnOk result (first_fault parts.now ≡ None) }
        ensures value { IfOk result (λ program. program ≡ program_of parts.now) }
        ensures err { IfErr result (λ fault. IsFault fault (first_fault parts.now)) }
    {
        top(parts)?;
        let mut params = Items::new(alloc);
        parameters(alloc, Section::Returns, &mut params, parts.returns.items())?;
        parameters(
            alloc,
            Section::Arguments,
            &mut params,
            parts.arguments.items(),
        )?;
        let scope = read_body(alloc, params.items(), parts.body.items())?;
        missing(params.items(), scope.targets())?;
        let read = scope.into_parts();
        let name = Text::from_str(alloc, parts.name.as_str()).map_err(memory)?;
        Ok(Program {
            name,
            params,
            ops: read.ops,
            overlap: may_overlap(parts.overlap.as_ref()),
            targets: read.targets,
            bits: read.bits,
        })
    }

    /// Says that the program is that of parts that break no rule. It does nothing.
    pub fn comes_from_parts(&self)
        ensures { IsOfParts self.now }
    {
        let _ = &self.name;
    }

    /// Its name.
    pub fn name(&self) -> &Text
        ensures { result.now ≡ self.now.name }
    {
        &self.name
    }

    /// Its parameters, the returns before the arguments.
    pub fn params(&self) -> &[Param]
        ensures params { result.now ≡ self.now.params }
        ensures accepted { IsAccepted self.now }
    {
        self.params.items()
    }

    /// Its operations in order.
    pub fn ops(&self) -> &[Op]
        ensures ops { result.now ≡ self.now.ops }
        ensures accepted { IsAccepted self.now }
    {
        self.ops.items()
    }

    /// Whether outputs may overlap inputs: the arrays that the function writes may share memory with those that it
    /// reads.
    pub fn overlap(&self) -> bool
        ensures { result ≡ self.now.overlap }
    {
        self.overlap
    }

    /// How many values it has: the results of all operations, at most [`MAX_VALUES`](crate::MAX_VALUES).
    pub fn values(&self) -> u32
        ensures { result ≡ length (values.targets_of self.now.ops) }
    {
        self.targets.as_slice().len() as u32
    }

    /// How many words it reads: all words of its input parameters.
    #[tactic(auto, using(crate::proofs::InputLemmas::inputs_sum))]
    pub fn input_words(&self) -> u32
        ensures { result ≡ length (values.input_bounds self.now.params) }
    {
        offset_of(self.params(), MAX_PARAMS) as u32
    }

    /// How many input words stand before those of the parameter with this number.
    pub fn input_offset(&self, param: usize) -> usize
        ensures count { result ≡ sum_by values.input_words (take param self.now.params) }
        ensures limit { result ≤ MAX_PARAMS * MAX_ARRAY_WORDS }
    {
        offset_of(self.params(), param)
    }

    /// How many words it writes: all words of its output parameters.
    pub fn output_words(&self) -> u32
        ensures { result ≡ values.output_count self.now.params }
    {
        output_count(self.params())
    }

    /// The target of each value, by its value number.
    pub fn targets(&self) -> &[Target]
        ensures { result.now ≡ values.targets_of self.now.ops }
    {
        self.targets.as_slice()
    }

    /// Whether the two programs are equal: their names, their parameters, their operations, and whether outputs may
    /// overlap inputs.
    pub fn same(&self, other: &Program) -> bool
        ensures { Decides result (self.now ≡ other.now) }
    {
        if self.name != other.name {
            return false;
        }
        if self.params != other.params {
            return false;
        }
        if self.overlap != other.overlap {
            return false;
        }
        self.ops == other.ops
    }

    /// Whether an operand is a bit: the literal 0 or 1, an input word of at most 1, or a value that its
    /// operation makes one.
    pub fn is_bit(&self, operand: &Operand) -> bool
        ensures { result ≡ values.is_bit self.now operand.now }
    {
        lookup::is_bit_by(self.params.items(), self.bits.as_slice(), *operand)
    }
}
