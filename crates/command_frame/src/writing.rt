ghost use Rattle.std.specs.Prelude.{◌≡◌, ◌≢◌, [], ◌∷◌, IfOk, codes};
ghost use Rattle.command_frame.specs.Change.{change_of};
ghost use Rattle.command_frame.specs.Writes.{OthersStay, Writes, says};

use crate::status::Status;
use base::Text;
use io_ports::Shelf;
use std::alloc::{AllocError, Global};

/// The name of standard output in a status: `-`. The one error is want of memory.
pub fn output_name(alloc: Global) -> Result<Text, AllocError>
    ensures { IfOk result (λ name. name ≡ codes "-") }
{
    Text::from_str(alloc, "-")
}

/// Says a text, which is all that a command writes. `output` is the name of standard output for the status.
pub fn say_text<S: Shelf>(text: &[u8], output: Text, shelf: &mut S) -> Status
    requires { output ≡ codes "-" }
    ensures writes { Writes 0 [] (says text.now) (change_of S.held S.said S.calls S.faults shelf.old shelf.new) result }
    ensures others { OthersStay [] (change_of S.held S.said S.calls S.faults shelf.old shelf.new) }
{
    match shelf.say(text) {
        Ok(()) => Status::Ok,
        Err(_) => Status::WriteFault(output),
    }
}

/// Stores a text under a name, and then says another. `output` is the name of standard output for the status.
pub fn store_and_say<S: Shelf>(
    text: &[u8],
    name: Text,
    word: &[u8],
    output: Text,
    shelf: &mut S,
) -> Status
    requires { output ≡ codes "-" }
    ensures writes { Writes 0 (name ∷ []) (record { texts = text.now ∷ []; word = word.now })
        (change_of S.held S.said S.calls S.faults shelf.old shelf.new) result }
    ensures others { OthersStay (name ∷ []) (change_of S.held S.said S.calls S.faults shelf.old shelf.new) }
{
    match shelf.store(name.as_str(), text) {
        Ok(()) => say_text(word, output, shelf),
        Err(_) => Status::WriteFault(name),
    }
}

/// Stores a text under one name, then another text under another name, and then says a word. `output` is the name
/// of standard output for the status.
pub fn store_both_and_say<S: Shelf>(
    first_text: &[u8],
    first: Text,
    second_text: &[u8],
    second: Text,
    word: &[u8],
    output: Text,
    shelf: &mut S,
) -> Status
    requires apart { first ≢ second }
    requires output { output ≡ codes "-" }
    ensures writes { Writes 0 (first ∷ second ∷ [])
        (record { texts = first_text.now ∷ second_text.now ∷ []; word = word.now })
        (change_of S.held S.said S.calls S.faults shelf.old shelf.new) result }
    ensures others { OthersStay (first ∷ second ∷ [])
        (change_of S.held S.said S.calls S.faults shelf.old shelf.new) }
{
    match shelf.store(first.as_str(), first_text) {
        Ok(()) => store_and_say(second_text, second, word, output, shelf),
        Err(_) => Status::WriteFault(first),
    }
}
