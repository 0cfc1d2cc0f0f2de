ghost use Rattle.std.specs.Prelude.{◌≡◌, ◌≤◌, true, length, IfOk};
ghost use Rattle.x86_instr.specs.Fits.{FitsLines};
ghost use Rattle.x86_instr.specs.Listings.{ends_at_ret, listing_of};
ghost use Rattle.x86_instr.specs.Frame as spec;

use crate::instr::{Bin, Instr};
use crate::line::{Line, Lines};
use crate::operand::{Reg, Src};
use base::{MAX_LINES, MAX_OPERATIONS, MAX_PARAMS, Text};
use std::alloc::Global;
use std::marker::Model;
use thiserror::Error;

/// How many bytes of the stack a listing may reserve: a word for each parameter of a program, and two for
/// each operation.
pub const MAX_FRAME_BYTES: usize = 8 * (MAX_PARAMS + 2 * MAX_OPERATIONS);

/// Why lines are no listing.
#[derive(Clone, Copy, Debug, PartialEq, Eq, Error)]
pub enum ListingFault {
    /// There are more than 65,536 lines.
    #[error("more than 65536 lines")]
    TooLong,
    /// The last line is not the only `ret`.
    #[error("the last line is not the only ret")]
    NoReturn,
}

/// A function: its name and its lines, at most 65,536, of which the last one is the only `ret`. Contracts
/// see the record of the name and the lines.
#[derive(Drop)]
pub struct Listing {
    name: Text,
    lines: Lines,
    alloc: Global,
}

impl Model for Listing {
    ghost use Rattle.std.specs.Prelude.{◌≡◌, ◌≤◌, true, length};
    ghost use Rattle.x86_instr.specs.Fits.{FitsLines};
    ghost use Rattle.base.specs.declared.limits.TheConstants.{MAX_LINES};
    ghost use Rattle.x86_instr.specs.Listings.{NamedLines, ends_at_ret};

    ghost Value = { NamedLines };

    ghost view = { λ l. record { name = l.name; lines = l.lines } };

    ghost invariant = { λ l. (length l.lines ≤ MAX_LINES) × (ends_at_ret l.lines ≡ true) × FitsLines l.lines };
}

impl Listing {
    /// The function with this name and these lines, which are dropped where they make none. `TooLong` comes
    /// exactly where there are more than 65,536 lines; otherwise `NoReturn` comes exactly where the last line
    /// is not the only `ret`. It takes no memory, and keeps `alloc` for copies.
    pub fn new(alloc: Global, name: Text, lines: Lines) -> Result<Listing, ListingFault>
        ensures listing { result ≡ listing_of name lines }
        ensures kept { IfOk result (λ l. (l.name ≡ name) × (l.lines ≡ lines)) }
    {
        if lines.items().len() > MAX_LINES {
            return Err(ListingFault::TooLong);
        }
        if !ends_at_ret(lines.items()) {
            return Err(ListingFault::NoReturn);
        }
        Ok(Listing { name, lines, alloc })
    }

    /// The name of the function.
    pub fn name(&self) -> &Text
        ensures { result.now ≡ self.now.name }
    {
        &self.name
    }

    /// The lines in order.
    pub fn lines(&self) -> &[Line]
        ensures lines { result.now ≡ self.now.lines }
        ensures short { length self.now.lines ≤ MAX_LINES }
        ensures ends { ends_at_ret self.now.lines ≡ true }
        ensures fits { FitsLines self.now.lines }
    {
        self.lines.items()
    }

    /// The bytes of the stack that the function reserves: `F` where the first line is `sub rsp, F` with `F` a
    /// multiple of 8 from 8 to 32,816, else 0.
    pub fn frame(&self) -> u32
        ensures { result ≡ spec.frame_of self.now.lines }
    {
        match self.lines.items().first() {
            Some(line) => reserved_by(line.instr),
            None => 0,
        }
    }
}

/// Whether the first `ret` is the last line.
fn ends_at_ret(lines: &[Line]) -> bool
    ensures { result ≡ ends_at_ret lines.now }
{
    for (number, line) in lines.iter().enumerate() {
        if line.instr.is_ret() {
            return number + 1 == lines.len();
        }
    }
    false
}

fn reserved_by(instr: Instr) -> u32
    ensures { result ≡ spec.reserved_by instr }
{
    match instr {
        Instr::Bin {
            op: Bin::Sub,
            dst: Reg::Rsp,
            src: Src::Imm(bytes),
        } => frame_in(bytes),
        _ => 0,
    }
}

fn frame_in(bytes: i32) -> u32
    ensures { result ≡ spec.frame_bytes bytes }
{
    if bytes >= 8 && bytes <= MAX_FRAME_BYTES as i32 && bytes % 8 == 0 {
        return bytes as u32;
    }
    0
}
