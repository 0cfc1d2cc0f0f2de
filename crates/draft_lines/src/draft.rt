use x86_instr::{Bin, Reg};

/// What a draft does.
#[derive(Clone, Copy, Debug, PartialEq, Eq)]
pub enum Form {
    /// Nothing: the line is gone.
    Hole,
    /// `mov` to the destination from any source.
    Move,
    /// `mov` of the destination register to memory.
    Store,
    /// `lea` of the address of the source, to which the second register is added.
    Lea,
    /// An operation on the destination and the source.
    Binary(Bin),
    /// `test` of the destination and the source.
    Test,
    /// `inc`
    Inc,
    /// `not`
    Not,
    /// `adcx`
    Adcx,
    /// `adox`
    Adox,
    /// `mulx`: the high word to the destination, the low one to the second register.
    Mulx,
    /// `mul`
    Mul,
    /// `imul`
    Imul,
    /// `shl` by the count.
    Shl,
    /// `shr` by the count.
    Shr,
    /// `shrd` by the count.
    Shrd,
    /// `shlx` by the second register.
    Shlx,
    /// `shrx` by the second register.
    Shrx,
    /// The carry flag into the low byte.
    SetCarry,
    /// The overflow flag into the low byte.
    SetOverflow,
    /// `movzx`
    Movzx,
    /// `cmovc`
    CmovCarry,
    /// `cmovnz`
    CmovNotZero,
    /// `clc`
    ClearCarry,
}

/// The source of a draft.
#[derive(Clone, Copy, Debug, PartialEq, Eq)]
pub enum Source {
    /// A register.
    Register(Reg),
    /// The word of the memory, or of `lea` the address, so many bytes from a register on.
    Memory(Reg, i32),
    /// A number.
    Number(u64),
}

/// A line that may still change.
#[derive(Clone, Copy, Debug, PartialEq, Eq)]
pub struct Draft {
    /// What it does.
    pub form: Form,
    /// The destination, or the one register that it reads.
    pub dst: Reg,
    /// The other register of `mulx`, of `lea`, and of shifts by a register.
    pub second: Option<Reg>,
    /// The source.
    pub source: Source,
    /// By how many bits it shifts.
    pub count: u8,
    /// The operation that owns the line.
    pub owner: Option<u16>,
}

impl Draft {
    /// A line with a destination and a source, which no operation owns.
    pub fn new(form: Form, dst: Reg, source: Source) -> Draft {
        Draft {
            form,
            dst,
            second: None,
            source,
            count: 0,
            owner: None,
        }
    }

    /// A `mov` to a register.
    pub fn mov(dst: Reg, source: Source) -> Draft {
        Draft::new(Form::Move, dst, source)
    }

    /// A line that reads and writes one register.
    pub fn alone(form: Form, dst: Reg) -> Draft {
        Draft::new(form, dst, Source::Register(dst))
    }

    /// The same with a second register.
    pub fn with_second(self, second: Reg) -> Draft {
        let mut draft = self;
        draft.second = Some(second);
        draft
    }

    /// The same with a count of bits.
    pub fn by(self, count: u8) -> Draft {
        let mut draft = self;
        draft.count = count;
        draft
    }

    /// The same with an owner.
    pub fn owned_by(self, owner: Option<u16>) -> Draft {
        let mut draft = self;
        draft.owner = owner;
        draft
    }

    /// Whether it is a `mov` of a register to itself.
    pub fn is_idle_move(&self) -> bool {
        self.form == Form::Move && self.source == Source::Register(self.dst)
    }

    /// Whether it is a `lea` of a register to itself.
    pub fn is_idle_lea(&self) -> bool {
        self.form == Form::Lea
            && self.second.is_none()
            && self.source == Source::Memory(self.dst, 0)
    }

    /// Whether an operation owns it, while it does nothing.
    pub fn is_idle(&self) -> bool {
        self.owner.is_some() && (self.is_idle_move() || self.is_idle_lea())
    }

    /// Whether its mnemonic is `mov`.
    pub fn is_mov(&self) -> bool {
        matches!(self.form, Form::Move | Form::Store)
    }

    /// Whether it copies a register to another one by `mov`.
    pub fn is_register_copy(&self) -> bool {
        self.form == Form::Move && matches!(self.source, Source::Register(_))
    }

    /// Whether it loads a register from memory.
    pub fn is_load(&self) -> bool {
        self.form == Form::Move && matches!(self.source, Source::Memory(_, _))
    }
}
