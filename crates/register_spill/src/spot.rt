ghost use Rattle.std.specs.Prelude.{◌≡◌};
ghost use Rattle.register_spill.specs.Spots.{is_in_register};

use x86_instr::Reg;

/// Where a value is.
#[derive(Clone, Copy, Debug, PartialEq, Eq)]
pub enum Spot {
    /// In a register.
    Register(Reg),
    /// In the slot of the frame with this number, which is the number of the value.
    Frame(u32),
    /// Nowhere.
    Nowhere,
}

impl Spot {
    /// Whether the spot is a register.
    pub fn is_register(self) -> bool
        ensures { result ≡ is_in_register self }
    {
        matches!(self, Spot::Register(_))
    }
}

/// The register that a value was put into.
#[derive(Clone, Copy, Debug, PartialEq, Eq)]
pub struct Taken {
    /// The register.
    pub reg: Reg,
    /// The value that had to leave it, and the slot of the frame that it is in from now on. None where the register was
    /// free.
    pub evicted: Option<(u16, u32)>,
}
