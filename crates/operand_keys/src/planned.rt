use crate::program_keys::Keys;
use crate::shapes::Shape;
use crate::words::Key;
use op_order::{Plan, Slot};
use std::alloc::{AllocError, Global};

/// What stands for a slot where there is none: a number past every slot.
pub const NEVER: usize = 1 << 28;

/// Of each of the keys that an operation uses, in their order, a slot.
pub type SlotsOfUses = [usize; 8];

/// When the keys of a program are used in a plan.
#[derive(Drop)]
pub struct NextUses {
    after: Vec<SlotsOfUses>,
    first: Vec<usize>,
    last: Vec<Option<usize>>,
    next_mulx: Vec<usize>,
    wanted: Vec<usize>,
    slots: Vec<Slot>,
}

/// As many equal numbers.
fn repeated(alloc: Global, count: usize, number: usize) -> Result<Vec<usize>, AllocError> {
    let mut list = Vec::with_capacity(alloc, count)?;
    for _ in 0..count {
        list.push(number)?;
    }
    Ok(list)
}

fn no_uses(alloc: Global, count: usize) -> Result<Vec<SlotsOfUses>, AllocError> {
    let mut list = Vec::with_capacity(alloc, count)?;
    for _ in 0..count {
        list.push([NEVER; 8])?;
    }
    Ok(list)
}

fn no_slots(alloc: Global, count: usize) -> Result<Vec<Option<usize>>, AllocError> {
    let mut list = Vec::with_capacity(alloc, count)?;
    for _ in 0..count {
        list.push(None)?;
    }
    Ok(list)
}

fn slot_at(list: &Vec<usize>, at: usize) -> usize {
    list.get(at).copied().unwrap_or(NEVER)
}

fn set_slot(list: &mut Vec<usize>, at: usize, slot: usize) {
    if let Some(place) = list.get_mut(at) {
        *place = slot;
    }
}

impl NextUses {
    /// The uses in a plan. The one error is want of memory. It takes time that grows with the number of operands.
    pub fn new(alloc: Global, keys: &Keys, plan: &Plan) -> Result<NextUses, AllocError> {
        let count = plan.slots().len();
        let mut uses = NextUses {
            after: no_uses(alloc, count)?,
            first: repeated(alloc, keys.count(), NEVER)?,
            last: no_slots(alloc, keys.count())?,
            next_mulx: repeated(alloc, count, NEVER)?,
            wanted: repeated(alloc, keys.count(), NEVER)?,
            slots: plan.slots().to_vec(alloc)?,
        };
        uses.enter_late(keys, count);
        uses.enter_slots(keys, plan.slots());
        Ok(uses)
    }

    /// The slots of the plan.
    pub fn slots(&self) -> &[Slot] {
        self.slots.as_slice()
    }

    /// The slot with this number.
    pub fn slot(&self, at: usize) -> Option<Slot> {
        self.slots.get(at).copied()
    }

    /// The first slot that uses a key.
    pub fn first(&self, key: Key) -> usize {
        slot_at(&self.first, key)
    }

    /// The last slot that uses a key. A word that is stored behind the last slot is used there.
    pub fn last(&self, key: Key) -> Option<usize> {
        self.last.get(key).copied().unwrap_or(None)
    }

    /// Of the keys that the operation of a slot uses, in their order, the slot that uses each one next.
    pub fn after(&self, at: usize, number: usize) -> usize {
        match self.after.get(at) {
            Some(slots) => slots.get(number).copied().unwrap_or(NEVER),
            None => NEVER,
        }
    }

    /// The next slot behind this one that multiplies by `mulx`.
    pub fn next_mulx(&self, at: usize) -> usize {
        slot_at(&self.next_mulx, at)
    }

    /// The slot of a `mulx` that has the key as a factor, or a word that is made of it.
    pub fn wanted(&self, key: Key) -> usize {
        slot_at(&self.wanted, key)
    }

    /// Enters the stores behind the last slot.
    fn enter_late(&mut self, keys: &Keys, end: usize) {
        for store in keys.late_stores() {
            self.enter_end(store.key, end);
            self.enter_end(store.cell.pointer, end);
        }
    }

    fn enter_end(&mut self, key: Key, end: usize) {
        set_slot(&mut self.first, key, end);
        self.set_last(key, end);
    }

    fn set_last(&mut self, key: Key, at: usize) {
        if let Some(place) = self.last.get_mut(key) {
            *place = Some(at);
        }
    }

    /// Enters the slots from the last one to the first.
    fn enter_slots(&mut self, keys: &Keys, slots: &[Slot]) {
        let mut next_mulx = NEVER;
        for (at, slot) in slots.iter().enumerate().rev() {
            let op = usize::from(slot.op);
            let shape = keys.shape(op);
            set_slot(&mut self.next_mulx, at, next_mulx);
            self.enter_uses(at, keys.uses(op));
            self.enter_wanted(at, &shape, slot.template, next_mulx);
            if shape.is_mulx(slot.template) {
                next_mulx = at;
            }
        }
    }

    fn enter_uses(&mut self, at: usize, uses: &[Key]) {
        for (number, key) in uses.iter().enumerate() {
            self.enter_use(at, number, *key);
        }
    }

    fn enter_use(&mut self, at: usize, number: usize, key: Key) {
        let next = self.first(key);
        if next >= NEVER {
            self.set_last(key, at);
        }
        self.set_after(at, number, next);
        set_slot(&mut self.first, key, at);
    }

    fn set_after(&mut self, at: usize, number: usize, next: usize) {
        if let Some(slots) = self.after.get_mut(at) {
            if let Some(place) = slots.get_mut(number) {
                *place = next;
            }
        }
    }

    /// Enters the factors of a `mulx`, and the operands of a word that the next `mulx` has as a factor.
    fn enter_wanted(&mut self, at: usize, shape: &Shape, template: u8, next_mulx: usize) {
        if shape.is_mulx(template) {
            set_slot(&mut self.wanted, shape.operand(0), at);
            set_slot(&mut self.wanted, shape.operand(1), at);
            return;
        }
        let wanted = self.wanted(shape.first);
        if wanted >= NEVER
            || wanted != next_mulx
            || matches!(shape.kind, word_program::Kind::Copy)
        {
            return;
        }
        self.enter_wanted_words(shape, next_mulx);
    }

    fn enter_wanted_words(&mut self, shape: &Shape, next_mulx: usize) {
        let bits = usize::from(shape.takes_bit());
        for key in shape.operands.iter().take(shape.count).skip(bits) {
            set_slot(&mut self.wanted, *key, next_mulx);
        }
    }
}
