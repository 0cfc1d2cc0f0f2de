ghost use Rattle.std.specs.Prelude.{◌≡◌, ◌≤◌, ◌-◌, ◌^◌, length, MatchResult, IfOk, IfErr};
ghost use Rattle.serde_json.specs.View.{view};
ghost use Rattle.word_program.specs.Walk.{Meets};
ghost use Rattle.word_program.specs.Rules.{program_of};
ghost use Rattle.fiat_json.specs.Shape.{raw_program};
ghost use Rattle.fiat_json.specs.Widths.{widest};
ghost use Rattle.fiat_json.specs.Reading.{document_fault, Reads, IsProgram, Causes};

use crate::fault::ReadFault;
use crate::parts;
use serde_json::Value;
use std::alloc::Global;
use std::str;
use word_program::{Program, ProgramFault};

#[tactic(auto, using(crate::proofs::ListWidths::width_of_read))]
fn json_of(alloc: Global, bytes: &[u8]) -> Result<Value, ReadFault>
    ensures reads { MatchResult result (λ value. Reads bytes.now (view value)) (Causes bytes.now) }
    ensures width { IfOk result (λ value. widest (view value) ≤ length bytes.now) }
{
    let Ok(text) = str::from_utf8(bytes) else {
        return Err(ReadFault::NotJson);
    };
    match Value::from_str(alloc, text) {
        Ok(value) => Ok(value),
        Err(error) if error.is_memory() => Err(ReadFault::Memory),
        Err(_) => Err(ReadFault::NotJson),
    }
}

fn program_in(alloc: Global, value: &Value) -> Result<Program, ProgramFault>
    requires { widest (view value.now) ≤ 2 ^ 32 - 2 }
    ensures fault { Meets result (document_fault (view value.now)) }
    ensures value { IfOk result (λ program. program ≡ program_of (raw_program (view value.now))) }
{
    let parts = parts::raw_program(alloc, value)?;
    Program::new(alloc, &parts)
}

/// Reads a program from the bytes of its JSON document.
///
/// `NotJson` comes exactly where the bytes are no JSON that `serde_json` reads, and `Program` exactly
/// where this rule is the first that the document breaks, at this place. Code 1 is a document of another
/// form; the other codes are those of [`Program::new`]. `Memory` is want of memory. A document of at most
/// 2^32 - 2 bytes has no array of more items than a place can count.
pub fn read_program(alloc: Global, bytes: &[u8]) -> Result<Program, ReadFault>
    requires { length bytes.now ≤ 2 ^ 32 - 2 }
    ensures ok { IfOk result (IsProgram bytes.now) }
    ensures err { IfErr result (Causes bytes.now) }
{
    let value = json_of(alloc, bytes)?;
    match program_in(alloc, &value) {
        Ok(program) => Ok(program),
        Err(ProgramFault::Rule { code, place }) => Err(ReadFault::Program { code, place }),
        Err(ProgramFault::Memory) => Err(ReadFault::Memory),
    }
}
