//! The words that leave their registers: what that costs, and how it is done.

use crate::state::{Pass, frame_word};
use draft_lines::{Draft, Form, Source};
use operand_keys::{Key, Word};
use register_spill::RegSet;
use std::alloc::AllocError;
use word_places::Weight;
use word_program::Kind;
use x86_instr::{REGISTERS, Reg};

/// What it costs to lose an unused product that can be made again, in tenths.
const PRODUCT_LOSS: usize = 35;

/// A product that nothing has used yet, and that can be made again at the first use of one of its words.
#[derive(Clone, Copy)]
struct Product {
    op: usize,
    line: usize,
    // The register of the other word, where that is needed too.
    partner: Option<Reg>,
    // The first slot that uses one of the words.
    next: usize,
}

/// The other result register of a `mulx`.
fn other_result(line: &Draft, reg: Reg) -> Reg {
    if line.dst == reg {
        return line.second.unwrap_or(reg);
    }
    line.dst
}

impl Pass<'_> {
    /// What it costs to have a key's word again, in tenths.
    fn loss(&self, key: Key) -> usize {
        let stored = self.slot(key).is_some();
        match self.keys.word(key) {
            Word::Literal(_) => 10,
            Word::Input(_) => 45,
            Word::InputPlace | Word::OutputPlace => if stored { 50 } else { 80 },
            Word::Value | Word::Scalar => if stored { 45 } else { 75 },
        }
    }

    /// The unused product that put the register's key there.
    fn unused_product(&self, reg: Reg) -> Option<usize> {
        let line = self.held.loaded_at(reg)?;
        if self.held.user_of(reg).is_some() {
            return None;
        }
        if self.lines.line(line).form != Form::Mulx {
            return None;
        }
        Some(line)
    }

    /// The register of the other word of an unused product.
    fn partner_of(&self, reg: Reg, line: usize) -> Option<Reg> {
        let other = other_result(&self.lines.line(line), reg);
        if other == reg || self.held.loaded_at(other) != Some(line) {
            return None;
        }
        self.held.holder(other)?;
        Some(other)
    }

    /// Whether the other word of the operation's product than this one is needed nowhere.
    fn is_partner_unneeded(&self, op: usize, key: Key) -> bool {
        let shape = self.keys.shape(op);
        if !matches!(shape.kind, Kind::MulX) {
            return true;
        }
        let number = usize::from(key == shape.first);
        let other = shape.first.saturating_add(number);
        self.uses.last(other).is_none() && !shape.is_stored(number)
    }

    /// Whether a factor can be had at this slot of the plan.
    fn is_factor_there(&self, key: Key, next: usize) -> bool {
        if self.schedule.again(key).is_some() {
            return false;
        }
        match self.keys.word(key) {
            Word::Literal(_) => true,
            Word::Input(cell) => match self.uses.last(cell.pointer) {
                Some(last) => last >= next,
                None => false,
            },
            _ => self.slot(key).is_some() || self.is_unclaimed(key),
        }
    }

    /// Whether the key is in a register that this slot does not overwrite.
    fn is_unclaimed(&self, key: Key) -> bool {
        match self.held.register_of(key) {
            Some(reg) => !self.claimed.has(reg),
            None => false,
        }
    }

    fn holds_factor(&self, reg: Reg) -> bool {
        match self.held.holder(reg) {
            Some(key) => self.schedule.is_factor(key),
            None => false,
        }
    }

    /// The slot that next uses the word in a register.
    fn next_in(&self, reg: Reg) -> usize {
        match self.held.holder(reg) {
            Some(key) => self.schedule.next(key),
            None => operand_keys::NEVER,
        }
    }

    /// The first slot that uses a word of the product in this register, if its other word may leave its register too.
    fn product_next(&self, reg: Reg, key: Key, op: usize, partner: Option<Reg>) -> Option<usize> {
        let Some(other) = partner else {
            if !self.is_partner_unneeded(op, key) {
                return None;
            }
            return Some(self.next_in(reg));
        };
        if self.pinned.has(other) || self.holds_factor(other) {
            return None;
        }
        Some(self.next_in(reg).min(self.next_in(other)))
    }

    /// The unused product in a register, where it may be made again at the first use of one of its words.
    fn product_in(&self, reg: Reg) -> Option<Product> {
        let line = self.unused_product(reg)?;
        let key = self.held.holder(reg)?;
        let op = self.keys.maker(key);
        let partner = self.partner_of(reg, line);
        let next = self.product_next(reg, key, op, partner)?;
        let shape = self.keys.shape(op);
        if !self.is_factor_there(shape.operand(0), next)
            || !self.is_factor_there(shape.operand(1), next)
        {
            return None;
        }
        // A word that is stored behind the last slot is not made again there: an input may be overwritten by then.
        let at_end = next == self.uses.slots().len();
        if self.schedule.is_factor(key) || next <= self.schedule.now || at_end {
            return None;
        }
        Some(Product {
            op,
            line,
            partner,
            next,
        })
    }

    /// What it costs to lose the word in a register, by how far away its next use is.
    pub fn weight(&self, reg: Reg) -> Weight {
        if let Some(product) = self.product_in(reg) {
            return Weight {
                loss: PRODUCT_LOSS,
                distance: product
                    .next
                    .saturating_sub(self.schedule.now)
                    .saturating_add(1),
            };
        }
        let key = self.held.holder(reg).unwrap_or(0);
        Weight {
            loss: self.loss(key),
            distance: self.schedule.distance(key).saturating_add(1),
        }
    }

    /// The register of the word whose loss costs least, none of the pinned and avoided ones.
    pub fn victim(&self, avoided: RegSet) -> Option<Reg> {
        let held = self.held_registers(avoided);
        let mut best: Option<(Reg, Weight)> = None;
        for reg in REGISTERS.iter() {
            if held.has(*reg) {
                best = Some(lighter(best, *reg, self.weight(*reg)));
            }
        }
        let (reg, _) = best?;
        Some(reg)
    }

    /// The word in a register leaves it: it is made or loaded again where it is needed, or goes to the frame.
    pub fn evict(&mut self, reg: Reg) -> Result<(), AllocError> {
        let Some(key) = self.held.holder(reg) else {
            return Ok(());
        };
        if let Some(product) = self.product_in(reg) {
            self.defer(reg, key, product);
            return Ok(());
        }
        self.undo_load(reg);
        self.store_word(key, reg)?;
        self.held.unbind(reg);
        Ok(())
    }

    fn store_word(&mut self, key: Key, reg: Reg) -> Result<(), AllocError> {
        let again = matches!(self.keys.word(key), Word::Literal(_) | Word::Input(_));
        if again || self.slot(key).is_some() {
            return Ok(());
        }
        let number = self.make_slot(key);
        self.emit(Draft::new(Form::Store, reg, frame_word(number)))?;
        Ok(())
    }

    /// Takes back the line that loaded a register: nothing used it since, or one line did, which reads memory then.
    fn undo_load(&mut self, reg: Reg) {
        let Some(at) = self.held.loaded_at(reg) else {
            return;
        };
        let load = self.lines.line(at);
        if load.form == Form::Mulx {
            return;
        }
        let Some(user) = self.held.user_of(reg) else {
            return self.lines.retire(at);
        };
        if load.is_load() && load.owner.is_none() {
            let mut line = self.lines.line(user);
            line.source = load.source;
            self.lines.replace(user, line);
            self.lines.retire(at);
        }
    }

    /// A product that nothing used goes away, to be made again at the first use of one of its words.
    fn defer(&mut self, reg: Reg, key: Key, product: Product) {
        self.retire_product(product.line);
        let shape = self.keys.shape(product.op);
        self.schedule.add_factor(shape.operand(0), product.next);
        self.schedule.add_factor(shape.operand(1), product.next);
        self.schedule.set_again(key, Some(product.op));
        if let Some(other) = product.partner {
            self.defer_partner(other, product.op);
        }
        self.held.unbind(reg);
    }

    fn defer_partner(&mut self, reg: Reg, op: usize) {
        if let Some(key) = self.held.holder(reg) {
            self.schedule.set_again(key, Some(op));
        }
        self.held.unbind(reg);
    }

    /// The line of a product goes away; an owned one stays, and reads no memory.
    fn retire_product(&mut self, at: usize) {
        let mut line = self.lines.line(at);
        if line.owner.is_none() {
            return self.lines.retire(at);
        }
        line.source = Source::Register(line.dst);
        self.lines.replace(at, line);
    }

    /// A product was made again, and does not need a factor any more.
    pub fn drop_factor(&mut self, key: Key) {
        self.schedule.drop_factor(key);
        if !self.keys.word(key).is_kept() || self.schedule.is_needed(key) {
            return;
        }
        if let Some(reg) = self.held.register_of(key) {
            self.held.unbind(reg);
        }
    }
}

/// Of the register that is best to lose so far and another one the better one, the first where they are equal.
fn lighter(best: Option<(Reg, Weight)>, reg: Reg, weight: Weight) -> (Reg, Weight) {
    match best {
        Some((old, least)) if !weight.is_below(least) => (old, least),
        _ => (reg, weight),
    }
}
