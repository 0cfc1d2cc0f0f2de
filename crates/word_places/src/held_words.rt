ghost use Rattle.op_order.specs.Legal.{IsLegal};

use crate::register_sets::{NONE, and_not, both, only};
use op_order::Plan;
use operand_keys::{Key, Keys};
use register_spill::{Places, RegSet, Spot};
use std::alloc::{AllocError, Global};
use word_program::Program;
use x86_instr::Reg;

/// For each register, by its number, a key or a line.
type ByRegister = [Option<usize>; 16];

/// Which word is in which register, and which line put it there.
#[derive(Drop)]
pub struct HeldWords {
    /// The key whose word lies in the otherwise free `rdx`.
    pub spare: Option<Key>,
    occupied: RegSet,
    // Which key a register holds; the line that put it there, if nothing has used it since; and the one line that
    // used it as a source.
    holders: ByRegister,
    loaded: ByRegister,
    users: ByRegister,
    // The register of each value, and of each other key.
    values: usize,
    places: Places,
    others: Vec<Option<Reg>>,
}

fn no_registers(alloc: Global, count: usize) -> Result<Vec<Option<Reg>>, AllocError> {
    let mut list = Vec::with_capacity(alloc, count)?;
    for _ in 0..count {
        list.push(None)?;
    }
    Ok(list)
}

/// The register of a value.
fn place_of(places: &Places, key: Key) -> Option<Reg> {
    let Ok(value) = u16::try_from(key) else {
        return None;
    };
    if key >= places.count() {
        return None;
    }
    match places.at(value) {
        Spot::Register(reg) => Some(reg),
        Spot::Frame(_) | Spot::Nowhere => None,
    }
}

/// The value is in no register.
fn release_value(places: &mut Places, key: Key) {
    let Ok(value) = u16::try_from(key) else {
        return;
    };
    if key < places.count() {
        places.release(value);
    }
}

/// Puts a value, which is in no register, into this one, which is free, so that no other value leaves its register.
fn take_value(places: &mut Places, key: Key, reg: Reg) {
    let Ok(value) = u16::try_from(key) else {
        return;
    };
    let pinned = RegSet {
        bits: !only(reg).bits,
    };
    if key >= places.count() || !pinned.leaves_one() {
        return;
    }
    if !places.at(value).is_register() {
        let _ = places.take(value, 0, pinned);
    }
}

impl HeldWords {
    /// No register holds a word. The one error is want of memory.
    pub fn new(
        alloc: Global,
        program: &Program,
        plan: &Plan,
        keys: &Keys,
    ) -> Result<HeldWords, AllocError>
        requires { IsLegal program.now plan.now.slots }
    {
        Ok(HeldWords {
            spare: None,
            occupied: NONE,
            holders: [None; 16],
            loaded: [None; 16],
            users: [None; 16],
            values: keys.values(),
            places: Places::new(alloc, program, plan)?,
            others: no_registers(alloc, keys.count())?,
        })
    }

    /// The registers that hold a key.
    pub fn occupied(&self) -> RegSet {
        self.occupied
    }

    /// The register's key.
    pub fn holder(&self, reg: Reg) -> Option<Key> {
        self.holders[reg.number() as usize]
    }

    /// The line that put the register's key there, where nothing has used it since but one line as a source.
    pub fn loaded_at(&self, reg: Reg) -> Option<usize> {
        self.loaded[reg.number() as usize]
    }

    /// The one line that used the register's key as a source since it was loaded.
    pub fn user_of(&self, reg: Reg) -> Option<usize> {
        self.users[reg.number() as usize]
    }

    /// Notes the line that put the register's key there.
    pub fn mark_loaded(&mut self, reg: Reg, line: usize) {
        self.loaded[reg.number() as usize] = Some(line);
        self.users[reg.number() as usize] = None;
    }

    /// Notes the one line that used the register's key as a source.
    pub fn mark_user(&mut self, reg: Reg, line: usize) {
        self.users[reg.number() as usize] = Some(line);
    }

    /// Notes that the register's word was used otherwise.
    pub fn mark_used(&mut self, reg: Reg) {
        self.loaded[reg.number() as usize] = None;
        self.users[reg.number() as usize] = None;
    }

    /// Notes that the register is overwritten.
    pub fn overwrite(&mut self, reg: Reg) {
        if reg == Reg::Rdx {
            self.spare = None;
        }
        self.mark_used(reg);
    }

    fn is_value(&self, key: Key) -> bool {
        key < self.values
    }

    /// The register that holds a key.
    pub fn register_of(&self, key: Key) -> Option<Reg> {
        if self.is_value(key) {
            return place_of(&self.places, key);
        }
        self.others.get(key).copied().unwrap_or(None)
    }

    /// The register that holds a key, as a set.
    pub fn registers_of(&self, key: Key) -> RegSet {
        match self.register_of(key) {
            Some(reg) => only(reg),
            None => NONE,
        }
    }

    fn set_other(&mut self, key: Key, reg: Option<Reg>) {
        if let Some(place) = self.others.get_mut(key) {
            *place = reg;
        }
    }

    /// The register holds no key any more.
    pub fn unbind(&mut self, reg: Reg) {
        self.mark_used(reg);
        let Some(key) = self.holder(reg) else {
            return;
        };
        self.holders[reg.number() as usize] = None;
        self.occupied = and_not(self.occupied, only(reg));
        if self.is_value(key) {
            release_value(&mut self.places, key);
        } else {
            self.set_other(key, None);
        }
    }

    /// The register holds the key, and no other register does.
    pub fn bind(&mut self, key: Key, reg: Reg) {
        if reg == Reg::Rdx {
            self.spare = None;
        }
        if self.holder(reg) == Some(key) {
            return;
        }
        if self.holder(reg).is_some() {
            self.unbind(reg);
        }
        if let Some(old) = self.register_of(key) {
            self.unbind(old);
        }
        self.holders[reg.number() as usize] = Some(key);
        self.occupied = both(self.occupied, only(reg));
        if self.is_value(key) {
            take_value(&mut self.places, key, reg);
        } else {
            self.set_other(key, Some(reg));
        }
    }

    /// Whether the key's word lies in the otherwise free `rdx`.
    pub fn is_spare(&self, key: Key) -> bool {
        self.spare == Some(key) && self.holder(Reg::Rdx).is_none()
    }

    /// Whether the key's word is in `rdx`.
    pub fn is_in_rdx(&self, key: Key) -> bool {
        self.register_of(key) == Some(Reg::Rdx) || self.is_spare(key)
    }
}
