ghost use Rattle.std.specs.Prelude.{◌≡◌};
ghost use Rattle.flag_tracks.specs.Homes as spec;

use x86_instr::{Flags, Reg};

/// Where a value is kept.
#[derive(Clone, Copy, Debug, PartialEq, Eq)]
pub enum Home {
    /// In the carry flag.
    Cf,
    /// In the overflow flag.
    Of,
    /// In a register.
    Register(Reg),
    /// In the slot of the frame with this number.
    Slot(u32),
    /// Nowhere.
    Gone,
}

/// The flag that the home is, where it is one.
pub fn flag_of(home: Home) -> Flags
    ensures { result ≡ spec.flag_of home }
{
    Flags {
        cf: matches!(home, Home::Cf),
        of: matches!(home, Home::Of),
        zf: false,
    }
}
