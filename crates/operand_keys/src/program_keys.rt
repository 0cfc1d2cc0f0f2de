use crate::shapes::{LateStore, Shape};
use crate::words::{Key, Word};
use std::alloc::{AllocError, Global};
use std::collections::BTreeMap;
use word_program::{Kind, Target};

/// The keys of a program, and its operations by their keys.
#[derive(Drop)]
pub struct Keys {
    alloc: Global,
    words: Vec<Word>,
    highs: Vec<u64>,
    literals: BTreeMap<u64, Key>,
    canonical: Vec<Key>,
    makers: Vec<usize>,
    shapes: Vec<Shape>,
    uses: Vec<Vec<Key>>,
    pointers: Vec<Key>,
    entries: Vec<Key>,
    input_words: Vec<Key>,
    late: Vec<LateStore>,
}

impl Keys {
    /// No key and no operation.
    pub(crate) fn empty(alloc: Global) -> Keys {
        Keys {
            alloc,
            words: Vec::new(alloc),
            highs: Vec::new(alloc),
            literals: BTreeMap::new(alloc),
            canonical: Vec::new(alloc),
            makers: Vec::new(alloc),
            shapes: Vec::new(alloc),
            uses: Vec::new(alloc),
            pointers: Vec::new(alloc),
            entries: Vec::new(alloc),
            input_words: Vec::new(alloc),
            late: Vec::new(alloc),
        }
    }

    /// How many keys there are.
    pub fn count(&self) -> usize {
        self.words.len()
    }

    /// How many values there are, whose keys are the first ones.
    pub fn values(&self) -> usize {
        self.canonical.len()
    }

    /// What a key stands for.
    pub fn word(&self, key: Key) -> Word {
        self.words.get(key).copied().unwrap_or(Word::Value)
    }

    /// The number of a literal, None for another key.
    pub fn literal(&self, key: Key) -> Option<u64> {
        match self.word(key) {
            Word::Literal(number) => Some(number),
            _ => None,
        }
    }

    /// Whether a key is that of the literal 0.
    pub fn is_zero(&self, key: Key) -> bool {
        self.literal(key) == Some(0)
    }

    /// The key of the literal 0.
    pub fn zero(&self) -> Key {
        self.literals.get(&0).copied().unwrap_or(0)
    }

    /// An upper end of the word of a key.
    pub fn high(&self, key: Key) -> u64 {
        self.highs.get(key).copied().unwrap_or(u64::MAX)
    }

    /// The key of a value's word.
    pub fn canonical(&self, value: Key) -> Key {
        self.canonical.get(value).copied().unwrap_or(value)
    }

    /// The operation that has the value with this key as a result.
    pub fn maker(&self, value: Key) -> usize {
        self.makers.get(value).copied().unwrap_or(0)
    }

    /// The operation with this number.
    pub fn shape(&self, op: usize) -> Shape {
        match self.shapes.get(op) {
            Some(shape) => *shape,
            None => NO_SHAPE,
        }
    }

    /// The keys that the operation needs, each once: its operands, and the places of the arrays that it reads or
    /// writes.
    pub fn uses(&self, op: usize) -> &[Key] {
        match self.uses.get(op) {
            Some(list) => list.as_slice(),
            None => &[],
        }
    }

    /// The key of the place of a parameter's array.
    pub fn pointer(&self, param: u8) -> Key {
        self.pointers.get(usize::from(param)).copied().unwrap_or(0)
    }

    /// The keys of the words that are passed, by parameter: places of arrays, and scalars.
    pub fn entries(&self) -> &[Key] {
        self.entries.as_slice()
    }

    /// The words that are stored behind the last operation.
    pub fn late_stores(&self) -> &[LateStore] {
        self.late.as_slice()
    }

    /// The key of an input word.
    pub(crate) fn input_word(&self, param: u8, word: u8) -> Key {
        let first = self
            .input_words
            .get(usize::from(param))
            .copied()
            .unwrap_or(0);
        first.saturating_add(usize::from(word))
    }

    /// A new key for this word.
    pub(crate) fn push_word(&mut self, word: Word, high: u64) -> Result<Key, AllocError> {
        let key = self.words.len();
        self.words.push(word)?;
        self.highs.push(high)?;
        Ok(key)
    }

    /// The key of a literal.
    pub(crate) fn intern(&mut self, number: u64) -> Result<Key, AllocError> {
        if let Some(key) = self.literals.get(&number) {
            return Ok(*key);
        }
        let key = self.push_word(Word::Literal(number), number)?;
        self.literals.insert(number, key)?;
        Ok(key)
    }

    /// Notes a parameter, by the key of the word that is passed and that of its first input word.
    pub(crate) fn push_parameter(&mut self, entry: Key, first: Key) -> Result<(), AllocError> {
        self.pointers.push(entry)?;
        self.entries.push(entry)?;
        self.input_words.push(first)?;
        Ok(())
    }

    /// Notes an operation, and the keys that it needs.
    pub(crate) fn push_shape(&mut self, shape: Shape, uses: Vec<Key>) -> Result<(), AllocError> {
        self.shapes.push(shape)?;
        self.uses.push(uses)?;
        Ok(())
    }

    /// Notes a result of the operation with this number: the key of its word, and an upper end.
    pub(crate) fn push_result(
        &mut self,
        op: usize,
        canonical: Key,
        high: u64,
    ) -> Result<(), AllocError> {
        let value = self.canonical.len();
        if let Some(place) = self.highs.get_mut(value) {
            *place = high;
        }
        self.canonical.push(canonical)?;
        self.makers.push(op)?;
        Ok(())
    }

    /// Notes a word that is stored behind the last operation.
    pub(crate) fn push_late(&mut self, store: LateStore) -> Result<(), AllocError> {
        self.late.push(store)?;
        Ok(())
    }

    /// The allocator.
    pub(crate) fn allocator(&self) -> Global {
        self.alloc
    }
}

const NO_SHAPE: Shape = Shape {
    kind: Kind::Copy,
    first: 0,
    count: 0,
    operands: [0; 3],
    cells: [None; 3],
    targets: [Target::Unused; 2],
    shifts: [0; 2],
};
