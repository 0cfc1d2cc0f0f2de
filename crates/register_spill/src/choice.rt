//! The register that a value is put into.

ghost use Rattle.std.specs.Prelude.{◌≡◌, ℕ, ◌<◌, ◌&&◌, Some, None, length, fold, is_none};
ghost use Rattle.std.specs.List.{find};
ghost use Rattle.std.specs.List.Sorted.{IsNonDecreasing};
ghost use Rattle.x86_instr.specs.declared.operand.Reg.{Reg};
ghost use Rattle.x86_instr.specs.Registers.{registers};
ghost use Rattle.register_spill.specs.Uses.{uses_at};
ghost use Rattle.register_spill.specs.Calls.{is_open};
ghost use Rattle.register_spill.specs.Inside.{holder_at};
ghost use Rattle.register_spill.specs.Choosing as spec;

use crate::registers::{RegSet, is_open};
use crate::uses::{Slots, distance};
use x86_instr::{REGISTERS, Reg};

/// For each register, by its number, the value that is in it.
pub type Holders = [Option<u16>; 16];

/// A value in a register, and the slot of its next use, or a number past every slot.
#[derive(Clone, Copy)]
pub struct Candidate {
    pub reg: Reg,
    pub value: u16,
    pub next: u32,
}

fn is_open_and_free(holders: &Holders, pinned: RegSet, reg: Reg) -> bool
    ensures { result ≡ (is_open pinned.bits reg && is_none (holder_at holders.now reg)) }
{
    if !is_open(pinned, reg) {
        return false;
    }
    holders[reg.number() as usize].is_none()
}

/// The free register with the lowest number of those that are not pinned.
#[tactic(auto, unfolding(crate::specs::Choosing::first_without))]
pub fn first_free(holders: &Holders, pinned: RegSet) -> Option<Reg>
    ensures { result ≡ spec.first_without holders.now pinned.bits }
{
    REGISTERS
        .iter()
        .copied()
        .find(|reg| is_open_and_free(holders, pinned, *reg))
}

/// Whether the next use of a value is farther than that of another one. Where they are as far, the value with the
/// greater number is farther.
fn is_beyond(value: &Candidate, other: &Candidate) -> bool
    ensures { result ≡ spec.is_beyond value.now other.now }
{
    if other.next == value.next {
        return other.value < value.value;
    }
    other.next < value.next
}

fn farther_of(found: Option<Candidate>, best: Option<Candidate>) -> Option<Candidate>
    ensures { result ≡ spec.farther_of found best }
{
    let Some(new) = found else {
        return best;
    };
    let Some(old) = best else {
        return found;
    };
    if is_beyond(&new, &old) { found } else { best }
}

/// The value in a register, where that is not pinned.
fn value_in(
    holders: &Holders,
    uses: &[Slots],
    reg: Reg,
    now: u16,
    pinned: RegSet,
) -> Option<Candidate>
    requires values { (r : Reg) (value : ℕ) → holder_at holders.now r ≡ Some value → value < length uses.now }
    requires ascending { (value : ℕ) → IsNonDecreasing (uses_at uses.now value) }
    ensures { result ≡ spec.candidate_of holders.now uses.now now pinned.bits reg }
{
    if !is_open(pinned, reg) {
        return None;
    }
    let Some(value) = holders[reg.number() as usize] else {
        return None;
    };
    let next = distance(uses[value as usize].items(), now);
    Some(Candidate { reg, value, next })
}

/// Of the values in registers that are not pinned the one whose next use is farthest.
pub fn farthest(holders: &Holders, uses: &[Slots], now: u16, pinned: RegSet) -> Option<Candidate>
    requires values { (r : Reg) (value : ℕ) → holder_at holders.now r ≡ Some value → value < length uses.now }
    requires ascending { (value : ℕ) → IsNonDecreasing (uses_at uses.now value) }
    ensures { result ≡ spec.farthest_of holders.entry.now uses.entry.now now pinned.bits registers }
{
    let mut best = None;
    for reg in REGISTERS.iter() {
        best = farther_of(value_in(holders, uses, *reg, now, pinned), best);
    }
    best
}
