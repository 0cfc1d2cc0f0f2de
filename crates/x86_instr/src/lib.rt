//! The instructions of a listing and the listing itself: registers, operands, instructions, their
//! mnemonics, and lists of lines that end at their only `ret`.
//!
//! It promises to whoever reads a [`Listing`] that it has at most 65,536 lines, of which the last one is
//! the only `ret`, and that each of its numbers is within its range (`specs/Fits.antt`), since the types
//! [`ShiftCount`], [`IndexReg`], [`Scale`] and [`Owner`] hold nothing else. What instructions do is said by
//! the crate `x86_meaning`. The instructions are those of the Intel Software Developer's Manual, volume 2, at
//! 64-bit operand size, but for `setcc`, which writes a byte, and `movzx`, which reads one.
#![tactic(auto)]

mod access;
mod flags;
mod instr;
mod laws;
mod line;
mod listing;
mod mnemonic;
mod operand;
mod owner;
mod ranges;

pub use access::Access;
pub use base::Text;
pub use flags::Flags;
pub use instr::{Bin, Cond, Instr, Un};
pub use laws::registers_stand_at_their_numbers;
pub use line::{Line, Lines};
pub use listing::{Listing, ListingFault, MAX_FRAME_BYTES};
pub use mnemonic::{Mnemonic, mnemonic_of};
pub use operand::{Index, Mem, REGISTERS, Reg, Rm, Src};
pub use owner::Owner;
pub use ranges::{IndexReg, Scale, ShiftCount};
