//! Bytes between memory and whatever can be read or written, with each fault counted.
ghost use Rattle.std.specs.Prelude.{◌≡◌, ◌≤◌, ◌++◌, length, vec_len, IfOk, IfErr, OnOk, OnErr};
ghost use Rattle.std.specs.Io.KnownBytes.{ReadConsumes, Appends};
ghost use Rattle.io_ports.specs.Shelf.{faults_after};
ghost use Rattle.io_ports.specs.Transfers.{Loads, AppendsPart, Writes};

use super::counts::Counts;
use super::fault::Fault;
use std::alloc::Global;
use std::io::{Read, Write};

// How many bytes one read asks for at most.
const PIECE: usize = 4096;

// The bytes that `file` gives up to its end, if they are at most `limit`. A read that gives nothing is the end.
// It reads no byte beyond the first one that is too many.
//
// `Failed` where a read gives an error, and only then is a fault counted. `TooLong` where there is a byte beyond
// the limit. `Memory` where there is no memory for the bytes.
pub fn load_from<F: Read>(
    counts: &mut Counts,
    alloc: Global,
    file: &mut F,
    limit: u64,
) -> Result<Vec<u8>, Fault>
    ensures answer { Loads limit (F.remaining file.old) (F.remaining file.new) result }
    ensures within { IfOk result (λ v. vec_len v ≤ limit) }
    ensures state { counts.new ≡ record counts.old { faults = faults_after counts.old.faults result } }
    ensures later { counts.old.faults ≤ counts.new.faults }
{
    let mut bytes = Vec::new(alloc);
    let mut piece = [0u8; PIECE];
    loop {
        let room = limit - bytes.len() as u64;
        let wanted = room.saturating_add(1).min(PIECE as u64) as usize;
        let count = read_piece(counts, file, &mut piece[..wanted])?;
        if count == 0 {
            return Ok(bytes);
        }
        if count as u64 > room {
            return Err(Fault::TooLong);
        }
        match bytes.extend_from_slice(&piece[..count]) {
            Ok(()) => {}
            Err(_) => return Err(Fault::Memory),
        }
    }
}

// One read, whose error is counted.
fn read_piece<F: Read>(counts: &mut Counts, file: &mut F, piece: &mut [u8]) -> Result<usize, Fault>
    ensures bytes { ReadConsumes (F.remaining file.old) (F.remaining file.new) result piece.new }
    ensures bound { IfOk result (λ n. n ≤ length piece.new) }
    ensures only { IfErr result (λ e. e ≡ Fault.Failed) }
    ensures state { counts.new ≡ record counts.old { faults = faults_after counts.old.faults result } }
    ensures later { counts.old.faults ≤ counts.new.faults }
{
    match file.read(piece) {
        Ok(count) => Ok(count),
        Err(_) => Err(counts.fault()),
    }
}

// Writes all of `bytes`. `Failed` where a write gives an error, or takes nothing of what is left; some first bytes
// were then written, and a fault is counted.
pub fn write_to<W: Write>(counts: &mut Counts, writer: &mut W, bytes: &[u8]) -> Result<(), Fault>
    ensures ok { OnOk result (Appends (W.contents writer.old) (W.contents writer.new) bytes.now) }
    ensures err { OnErr result (AppendsPart (W.contents writer.old) (W.contents writer.new) bytes.now) }
    ensures only { IfErr result (λ e. e ≡ Fault.Failed) }
    ensures state { counts.new ≡ record counts.old { faults = faults_after counts.old.faults result } }
    ensures later { counts.old.faults ≤ counts.new.faults }
{
    let mut rest = bytes;
    while !rest.is_empty() {
        let count = write_piece(counts, writer, rest)?;
        rest = &rest[count..];
    }
    Ok(())
}

// One write of bytes, of which there are some. An error, and a write that takes none of them, is counted.
fn write_piece<W: Write>(counts: &mut Counts, writer: &mut W, bytes: &[u8]) -> Result<usize, Fault>
    ensures bytes { Writes (W.contents writer.old) (W.contents writer.new) bytes.now result }
    ensures only { IfErr result (λ e. e ≡ Fault.Failed) }
    ensures state { counts.new ≡ record counts.old { faults = faults_after counts.old.faults result } }
    ensures later { counts.old.faults ≤ counts.new.faults }
{
    match writer.write(bytes) {
        Err(_) | Ok(0) => Err(counts.fault()),
        Ok(count) => Ok(count),
    }
}
