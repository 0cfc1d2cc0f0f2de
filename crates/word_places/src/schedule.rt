use operand_keys::{Key, Keys, NEVER, NextUses};
use std::alloc::{AllocError, Global};

/// When the words are used next, at a slot of the plan.
#[derive(Drop)]
pub struct Schedule<'a> {
    /// The slot of the plan.
    pub now: usize,
    /// The operation of the slot.
    pub op: usize,
    keys: &'a Keys,
    uses: &'a NextUses,
    // Of each key the slot that uses it next, at or after this one; and of those that this slot uses, the slot that
    // uses it next behind this one.
    next: Vec<usize>,
    after: Vec<usize>,
    // The operation whose product is made again at the next use of the key.
    again: Vec<Option<usize>>,
    // How many of the products that are made again have the key as a factor, and the first slot at which one is made.
    factor_counts: Vec<usize>,
    factor_until: Vec<usize>,
}

fn no_numbers(alloc: Global, count: usize) -> Result<Vec<Option<usize>>, AllocError> {
    let mut list = Vec::with_capacity(alloc, count)?;
    for _ in 0..count {
        list.push(None)?;
    }
    Ok(list)
}

fn equal_numbers(alloc: Global, count: usize, number: usize) -> Result<Vec<usize>, AllocError> {
    let mut list = Vec::with_capacity(alloc, count)?;
    for _ in 0..count {
        list.push(number)?;
    }
    Ok(list)
}

fn first_uses(alloc: Global, uses: &NextUses, count: usize) -> Result<Vec<usize>, AllocError> {
    let mut list = Vec::with_capacity(alloc, count)?;
    for key in 0..count {
        list.push(uses.first(key))?;
    }
    Ok(list)
}

fn number_at(list: &Vec<usize>, at: usize, default: usize) -> usize {
    list.get(at).copied().unwrap_or(default)
}

fn set_number(list: &mut Vec<usize>, at: usize, number: usize) {
    if let Some(place) = list.get_mut(at) {
        *place = number;
    }
}

impl<'a> Schedule<'a> {
    /// Before the first slot. The one error is want of memory.
    pub fn new(
        alloc: Global,
        keys: &'a Keys,
        uses: &'a NextUses,
    ) -> Result<Schedule<'a>, AllocError> {
        let count = keys.count();
        Ok(Schedule {
            now: 0,
            op: 0,
            keys,
            uses,
            next: first_uses(alloc, uses, count)?,
            after: equal_numbers(alloc, count, NEVER)?,
            again: no_numbers(alloc, count)?,
            factor_counts: equal_numbers(alloc, count, 0)?,
            factor_until: equal_numbers(alloc, count, NEVER)?,
        })
    }

    /// The slot that uses a key next, at or after this one.
    pub fn next(&self, key: Key) -> usize {
        number_at(&self.next, key, NEVER)
    }

    /// Of a key that this slot uses, the slot that uses it next behind this one.
    pub fn after(&self, key: Key) -> usize {
        number_at(&self.after, key, NEVER)
    }

    /// The slot that uses a key next behind this one.
    pub fn later(&self, key: Key) -> usize {
        if self.next(key) == self.now {
            return self.after(key);
        }
        self.next(key)
    }

    /// Whether the key's word is needed behind this slot.
    pub fn is_live(&self, key: Key) -> bool {
        self.later(key) < NEVER || self.is_factor(key)
    }

    /// Whether the key's word is needed at this slot or behind it.
    pub fn is_needed(&self, key: Key) -> bool {
        self.next(key) < NEVER || self.is_factor(key)
    }

    /// Whether a product that is made again has the key as a factor.
    pub fn is_factor(&self, key: Key) -> bool {
        number_at(&self.factor_counts, key, 0) > 0
    }

    /// How far away the next use of a key is, where that may be as a factor of a product that is made again.
    pub fn distance(&self, key: Key) -> usize {
        let next = self.next(key);
        if !self.is_factor(key) {
            return next.saturating_sub(self.now);
        }
        let until = number_at(&self.factor_until, key, NEVER);
        let factor = until.max(self.now.saturating_add(1));
        next.min(factor).saturating_sub(self.now)
    }

    /// The operation whose product is made again at the next use of the key.
    pub fn again(&self, key: Key) -> Option<usize> {
        self.again.get(key).copied().unwrap_or(None)
    }

    /// Notes whether the key's product is made again.
    pub fn set_again(&mut self, key: Key, op: Option<usize>) {
        if let Some(place) = self.again.get_mut(key) {
            *place = op;
        }
    }

    /// A product that is made again at this slot of the plan has the key as a factor. Literals and words of input
    /// arrays can be had at any time.
    pub fn add_factor(&mut self, key: Key, slot: usize) {
        if !self.keys.word(key).is_kept() {
            return;
        }
        let count = number_at(&self.factor_counts, key, 0);
        let until = number_at(&self.factor_until, key, NEVER);
        set_number(&mut self.factor_counts, key, count.saturating_add(1));
        set_number(&mut self.factor_until, key, until.min(slot));
    }

    /// A product was made again, and does not need its factor any more.
    pub fn drop_factor(&mut self, key: Key) {
        if !self.keys.word(key).is_kept() {
            return;
        }
        let count = number_at(&self.factor_counts, key, 0).saturating_sub(1);
        set_number(&mut self.factor_counts, key, count);
        if count == 0 {
            set_number(&mut self.factor_until, key, NEVER);
        }
    }

    /// The next slot behind this one that multiplies by `mulx`.
    pub fn next_mulx(&self) -> usize {
        self.uses.next_mulx(self.now)
    }

    /// Whether the value is best made in `rdx`: the next `mulx` has it as a factor, or a word that is made of it.
    pub fn is_wanted(&self, value: Key) -> bool {
        let wanted = self.uses.wanted(value);
        wanted < NEVER && wanted == self.next_mulx()
    }

    /// Goes to a slot of the plan, and its operation.
    pub fn enter_slot(&mut self, at: usize, op: usize) {
        self.now = at;
        self.op = op;
        for (number, key) in self.keys.uses(op).iter().enumerate() {
            let next = self.uses.after(at, number);
            set_number(&mut self.after, *key, next);
        }
    }

    /// Leaves the slot: the next use of each key that it used is the one behind it.
    pub fn leave_slot(&mut self) {
        for key in self.keys.uses(self.op).iter() {
            let next = self.after(*key);
            set_number(&mut self.next, *key, next);
        }
    }
}
