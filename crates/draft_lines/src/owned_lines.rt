use crate::draft::{Draft, Form, Source};
use std::alloc::{AllocError, Global};
use x86_instr::Reg;

/// How many saves of registers stand at the head of a listing, which may have owners.
const MOST_LEADS: usize = 6;

/// How many movable lines an owner passes at most.
const WINDOW: usize = 64;

const HOLE: Draft = Draft {
    form: Form::Hole,
    dst: Reg::Rax,
    second: None,
    source: Source::Number(0),
    count: 0,
    owner: None,
};

/// The lines of a listing while it is written. An owned line that does nothing gives its owner to an unowned line with
/// the same mnemonic that stands between the neighbouring owned lines, and goes away.
#[derive(Drop)]
pub struct DraftLines {
    drafts: Vec<Draft>,
    // The owned lines since the last one that has to stay where it is: each is a `mov`, or the one `lea`.
    movable: Vec<usize>,
    // The owners that the saves at the head of the listing get.
    leads: Vec<u16>,
    // No line before this one may take an owner any more.
    open: usize,
    any_owned: bool,
}

impl DraftLines {
    /// No lines.
    pub fn new(alloc: Global) -> DraftLines {
        DraftLines {
            drafts: Vec::new(alloc),
            movable: Vec::new(alloc),
            leads: Vec::new(alloc),
            open: 0,
            any_owned: false,
        }
    }

    /// The lines, holes among them.
    pub fn drafts(&self) -> &[Draft] {
        self.drafts.as_slice()
    }

    /// How many lines there are, holes among them.
    pub fn count(&self) -> usize {
        self.drafts.len()
    }

    /// The line with this number; a hole where there is none.
    pub fn line(&self, at: usize) -> Draft {
        self.drafts.get(at).copied().unwrap_or(HOLE)
    }

    /// Puts another line in the place of one.
    pub fn replace(&mut self, at: usize, draft: Draft) {
        if let Some(place) = self.drafts.get_mut(at) {
            *place = draft;
        }
    }

    /// Takes a line away. Where an operation owns it, a line that does nothing stays in its place.
    pub fn retire(&mut self, at: usize) {
        let old = self.line(at);
        if old.owner.is_none() {
            return self.replace(at, HOLE);
        }
        let idle = Draft::mov(old.dst, Source::Register(old.dst));
        self.replace(at, idle.owned_by(old.owner));
    }

    /// The operations that own the saves at the head of the listing, in order.
    pub fn leads(&self) -> &[u16] {
        self.leads.as_slice()
    }

    /// Whether an idle `mov` that comes next would go to the head of the listing.
    pub fn may_lead(&self) -> bool {
        !self.any_owned && self.movable.is_empty() && self.leads.len() < MOST_LEADS
    }

    /// Puts a line at the end, and gives its number. The one error is want of memory.
    pub fn push(&mut self, draft: Draft) -> Result<usize, AllocError> {
        let at = self.drafts.len();
        self.drafts.push(draft)?;
        if draft.is_idle() {
            self.settle_idle(at, draft)?;
        } else if draft.owner.is_some() {
            self.fix(at);
        } else if draft.is_mov() {
            self.take_owner(at, draft);
        }
        Ok(at)
    }

    /// An owned line that has to stay where it is: no owner passes it.
    fn fix(&mut self, at: usize) {
        self.movable.clear();
        self.open = at.saturating_add(1);
        self.any_owned = true;
    }

    /// An idle owned line: the head of the listing or an earlier line takes its owner, or it waits for a later one.
    fn settle_idle(&mut self, at: usize, draft: Draft) -> Result<(), AllocError> {
        let Some(owner) = draft.owner else {
            return Ok(());
        };
        if draft.form == Form::Move && self.may_lead() {
            self.leads.push(owner)?;
            self.replace(at, HOLE);
            return Ok(());
        }
        let Some(earlier) = self.earlier_for(at, draft.form) else {
            self.movable.push(at)?;
            self.open = at.saturating_add(1);
            return Ok(());
        };
        self.give(earlier, draft);
        self.replace(at, HOLE);
        self.movable.push(earlier)?;
        self.open = earlier.saturating_add(1);
        Ok(())
    }

    /// The first unowned line before this one that may take the owner of an idle line.
    fn earlier_for(&self, at: usize, form: Form) -> Option<usize> {
        for earlier in self.open..at {
            let line = self.line(earlier);
            if line.owner.is_none() && fits(&line, form) {
                return Some(earlier);
            }
        }
        None
    }

    /// Gives a line the owner and the mnemonic of an idle one.
    fn give(&mut self, at: usize, idle: Draft) {
        let line = self.line(at).owned_by(idle.owner);
        self.replace(
            at,
            if idle.form == Form::Lea {
                as_lea(line)
            } else {
                line
            },
        );
    }

    /// An unowned `mov` takes the owner of the last idle line, where owners may pass the lines between.
    fn take_owner(&mut self, at: usize, draft: Draft) {
        let Some(place) = self.last_idle() else {
            return;
        };
        let idle = self.line(self.movable_at(place));
        if idle.form == Form::Lea {
            if place.saturating_add(1) == self.movable.len() && draft.is_register_copy() {
                self.give(at, idle);
                self.leave(place, at);
            }
            return;
        }
        let owner = self.shift_owners(place, idle.owner);
        self.replace(at, draft.owned_by(owner));
        let last = self.movable.len().saturating_sub(1);
        set_number(&mut self.movable, last, at);
    }

    /// The movable line at this place goes away, and those behind it each take the owner of the one before. Gives the
    /// owner that is left, and a free last place.
    fn shift_owners(&mut self, place: usize, first: Option<u16>) -> Option<u16> {
        self.replace(self.movable_at(place), HOLE);
        let mut owner = first;
        for before in place..self.movable.len().saturating_sub(1) {
            owner = self.pass_owner(before, owner);
        }
        owner
    }

    /// The movable line behind a place moves there, and takes an owner for its own one.
    fn pass_owner(&mut self, before: usize, owner: Option<u16>) -> Option<u16> {
        let at = self.movable_at(before.saturating_add(1));
        let line = self.line(at);
        self.replace(at, line.owned_by(owner));
        set_number(&mut self.movable, before, at);
        line.owner
    }

    /// The line at this place becomes a hole, and another one stands in its place.
    fn leave(&mut self, place: usize, at: usize) {
        self.replace(self.movable_at(place), HOLE);
        set_number(&mut self.movable, place, at);
    }

    fn movable_at(&self, place: usize) -> usize {
        self.movable.get(place).copied().unwrap_or(usize::MAX)
    }

    /// The place among the movable lines of the last one that does nothing; None where a `lea` stands behind it.
    fn last_idle(&self) -> Option<usize> {
        let count = self.movable.len();
        for place in (count.saturating_sub(WINDOW)..count).rev() {
            let line = self.line(self.movable_at(place));
            if line.is_idle() {
                return Some(place);
            }
            if line.form == Form::Lea {
                return None;
            }
        }
        None
    }
}

/// Whether a line may take the owner of an idle one of this form.
fn fits(line: &Draft, form: Form) -> bool {
    if form == Form::Lea {
        return line.is_register_copy();
    }
    line.is_mov()
}

/// The `lea` that copies what a `mov` between registers copies.
fn as_lea(line: Draft) -> Draft {
    let mut lea = line;
    lea.form = Form::Lea;
    if let Source::Register(reg) = line.source {
        lea.source = Source::Memory(reg, 0);
    }
    lea
}

fn set_number(list: &mut Vec<usize>, place: usize, number: usize) {
    if let Some(at) = list.get_mut(place) {
        *at = number;
    }
}
