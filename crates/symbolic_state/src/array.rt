ghost use Rattle.std.specs.Prelude.{◌≡◌, ◌<◌, ◌≤◌, length, map, None};
ghost use Rattle.base.specs.declared.limits.TheConstants.{MAX_ARRAY_WORDS};
ghost use Rattle.word_program.specs.Values as values;
ghost use Rattle.symbolic_state.specs.Written.{output_words};
ghost use Rattle.symbolic_state.specs.Cells.{forgotten, known, with_word};

use std::marker::Model;
use word_program::{Role, is_output};

/// The array of a parameter, word by word; no words for a scalar. Contracts see the record of the fields.
#[derive(Drop)]
pub struct Array {
    role: Role,
    words: Vec<Option<u32>>,
}

impl Model for Array {
    ghost use Rattle.std.specs.Prelude.{◌≤◌, length};
    ghost use Rattle.base.specs.declared.limits.TheConstants.{MAX_ARRAY_WORDS};
    ghost use Rattle.symbolic_state.specs.Symbols as symbols;

    ghost Value = { symbols.Array };

    ghost view = { λ a. record { role = a.role; words = a.words.items } };

    ghost invariant = { λ a. length a.words.items ≤ MAX_ARRAY_WORDS };
}

#[tactic(auto, using(crate::proofs::Forgetting::map_none))]
fn forget(words: &mut [Option<u32>])
    ensures { words.new ≡ map (λ node. None) words.old }
{
    words.fill(None);
}

impl Array {
    /// The array with these words.
    pub fn new(role: Role, words: Vec<Option<u32>>) -> Array
        requires { length words.items ≤ MAX_ARRAY_WORDS }
        ensures { result ≡ record { role = role; words = words.items } }
    {
        Array { role, words }
    }

    /// Whether it is an output.
    pub fn is_output(&self) -> bool
        ensures { result ≡ values.is_output self.now.role }
    {
        is_output(self.role)
    }

    /// How many words it has.
    pub fn len(&self) -> usize
        ensures count { result ≡ length self.now.words }
        ensures most { result ≤ MAX_ARRAY_WORDS }
    {
        self.words.len()
    }

    /// The node of a word, where there is such a word and its node is known.
    pub fn known(&self, word: usize) -> Option<u32>
        ensures { result ≡ known self.now.words word }
    {
        match self.words.get(word) {
            Some(node) => *node,
            None => None,
        }
    }

    /// The words of an output; none of an input.
    pub fn output_words(&self) -> &[Option<u32>]
        ensures { result.now ≡ output_words self.now }
    {
        if is_output(self.role) {
            self.words.as_slice()
        } else {
            &[]
        }
    }

    /// Puts a node into a word.
    pub fn set(&mut self, word: usize, node: u32)
        requires { word < length self.now.words }
        ensures { self.new ≡ with_word self.old word node }
    {
        self.words[word] = Some(node);
    }

    /// Forgets all words, where it is an input.
    pub fn forget(&mut self)
        ensures { self.new ≡ forgotten self.old }
    {
        if is_output(self.role) {
            return;
        }
        forget(self.words.as_mut_slice());
    }
}
