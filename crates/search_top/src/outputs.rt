ghost use Rattle.std.specs.Prelude.{◌≡◌, ◌+◌, ◌++◌, ◌<◌, ◌≤◌, ◌^◌, length, IfOk, OnOk, string_bytes, sum_by};
ghost use Rattle.std.specs.Int.{to_be_bytes, w64};
ghost use Rattle.hex.specs.Hex.{encode_lower};
ghost use Rattle.word_program.specs.Values.{is_output};
ghost use Rattle.search_top.specs.Outputs as spec;

use itoa::Buffer;
use std::alloc::{AllocError, Global};
use word_program::{Param, Role};

/// A line for each output word, in the order of the parameters.
pub fn output_lines(alloc: Global, params: &[Param], words: &[u64]) -> Result<String, AllocError>
    ensures { IfOk result (λ text. string_bytes text ≡ spec.output_lines params.now words.now) }
{
    let mut text = String::new(alloc);
    let mut rest = words;
    for param in params {
        if is_output(param.role) {
            let count = param.bounds.items().len().min(rest.len());
            let (here, later) = rest.split_at(count);
            push_array(alloc, &mut text, param.name.as_str(), here)?;
            rest = later;
        }
    }
    Ok(text)
}

/// Whether a parameter of this role is an output.
pub fn is_output(role: Role) -> bool
    ensures { result ≡ is_output role }
{
    matches!(role, Role::Output)
}

fn push_array(alloc: Global, text: &mut String, name: &str, words: &[u64]) -> Result<(), AllocError>
    ensures { OnOk result (string_bytes text.new ≡ string_bytes text.old ++ spec.array_lines name.now 0 words.now) }
{
    for (index, word) in words.iter().enumerate() {
        push_word(alloc, text, name, index as u64, *word)?;
    }
    Ok(())
}

#[tactic(auto, unfolding(crate::specs::Outputs::word_line))]
fn push_word(
    alloc: Global,
    text: &mut String,
    name: &str,
    index: u64,
    word: u64,
) -> Result<(), AllocError>
    ensures { OnOk result (string_bytes text.new ≡ string_bytes text.old ++ spec.word_line name.now index word) }
{
    let digits = hex_digits(alloc, word)?;
    text.push_str(name)?;
    text.push_str("[")?;
    text.push_str(Buffer::new().format(index))?;
    text.push_str("] 0x")?;
    text.push_str(digits.as_str())?;
    text.push_str("\n")
}

fn hex_digits(alloc: Global, word: u64) -> Result<String, AllocError>
    ensures { IfOk result (λ text. string_bytes text ≡ encode_lower (to_be_bytes w64 word)) }
{
    hex::encode(alloc, word.to_be_bytes().as_slice())
}
