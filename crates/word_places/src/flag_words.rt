use flag_tracks::{Home, Tracks};
use operand_keys::Key;
use std::alloc::{AllocError, Global};
use word_program::Program;
use x86_instr::Instr;

/// A flag that carries a bit from one line to another.
#[derive(Clone, Copy, Debug, PartialEq, Eq)]
pub enum StatusFlag {
    /// The carry flag.
    Carry,
    /// The overflow flag.
    Overflow,
}

impl StatusFlag {
    /// The other one.
    pub fn other(self) -> StatusFlag {
        match self {
            StatusFlag::Carry => StatusFlag::Overflow,
            StatusFlag::Overflow => StatusFlag::Carry,
        }
    }

    fn home(self) -> Home {
        match self {
            StatusFlag::Carry => Home::Cf,
            StatusFlag::Overflow => Home::Of,
        }
    }
}

/// What a flag is.
#[derive(Clone, Copy, Debug, PartialEq, Eq)]
pub enum FlagWord {
    /// Any bit.
    Unknown,
    /// 0.
    Zero,
    /// The word of a key, which is a bit.
    Holds(Key),
}

/// What is in the two flags.
#[derive(Drop)]
pub struct FlagWords {
    tracks: Tracks,
    carry: FlagWord,
    overflow: FlagWord,
}

/// Whether a value that was put into a flag is there still. Other keys are.
fn stays(tracks: &Tracks, key: Key, flag: StatusFlag) -> bool {
    let Ok(value) = u16::try_from(key) else {
        return true;
    };
    if key >= tracks.count() {
        return true;
    }
    tracks.home(value) == flag.home()
}

fn put_value(tracks: &mut Tracks, key: Key, flag: StatusFlag) {
    let Ok(value) = u16::try_from(key) else {
        return;
    };
    if key < tracks.count() {
        tracks.put(value, flag.home());
    }
}

impl FlagWords {
    /// Both flags are any bit. The one error is want of memory.
    pub fn new(alloc: Global, program: &Program) -> Result<FlagWords, AllocError> {
        Ok(FlagWords {
            tracks: Tracks::new(alloc, program)?,
            carry: FlagWord::Unknown,
            overflow: FlagWord::Unknown,
        })
    }

    fn noted(&self, flag: StatusFlag) -> FlagWord {
        match flag {
            StatusFlag::Carry => self.carry,
            StatusFlag::Overflow => self.overflow,
        }
    }

    fn note(&mut self, flag: StatusFlag, word: FlagWord) {
        match flag {
            StatusFlag::Carry => self.carry = word,
            StatusFlag::Overflow => self.overflow = word,
        }
    }

    /// What a flag is.
    pub fn word(&self, flag: StatusFlag) -> FlagWord {
        let word = self.noted(flag);
        match word {
            FlagWord::Holds(key) if !stays(&self.tracks, key, flag) => FlagWord::Unknown,
            _ => word,
        }
    }

    /// The key whose word is in a flag.
    pub fn key(&self, flag: StatusFlag) -> Option<Key> {
        match self.word(flag) {
            FlagWord::Holds(key) => Some(key),
            FlagWord::Unknown | FlagWord::Zero => None,
        }
    }

    /// The flag that holds a key.
    pub fn flag_of(&self, key: Key) -> Option<StatusFlag> {
        if self.key(StatusFlag::Carry) == Some(key) {
            return Some(StatusFlag::Carry);
        }
        if self.key(StatusFlag::Overflow) == Some(key) {
            return Some(StatusFlag::Overflow);
        }
        None
    }

    /// Notes what a flag is, behind the line that made it so.
    pub fn set(&mut self, flag: StatusFlag, word: FlagWord) {
        self.note(flag, word);
        if let FlagWord::Holds(key) = word {
            put_value(&mut self.tracks, key, flag);
        }
    }

    /// Notes that both flags are 0.
    pub fn set_both_zero(&mut self) {
        self.set(StatusFlag::Carry, FlagWord::Zero);
        self.set(StatusFlag::Overflow, FlagWord::Zero);
    }

    /// Notes what an instruction does to the flags: those that it writes are any bit then.
    pub fn run(&mut self, instr: &Instr) {
        self.tracks.kill(instr);
        let written = instr.flags_written();
        if written.cf {
            self.note(StatusFlag::Carry, FlagWord::Unknown);
        }
        if written.of {
            self.note(StatusFlag::Overflow, FlagWord::Unknown);
        }
    }
}
