ghost use Rattle.std.specs.Prelude.{◌≡◌, [], IfOk, OnErr, OnOk};
ghost use Rattle.terms.specs.Tables.{Prefix};
ghost use Rattle.term_store.specs.Indexed.{joined_nodes};
ghost use Rattle.program_nodes.specs.Sources.{source_made};
ghost use Rattle.equiv_validator.specs.Checks.{IsVerdict, SaysCorrect};
ghost use Rattle.equiv_validator.specs.Runs.{run_of};

use crate::ending::verdict_on;
use crate::prepared::Prepared;
use crate::running::{Ending, run_listing};
use crate::verdict::{Verdict, Why};
use std::alloc::{AllocError, Global};
use term_store::Tail;
use x86_instr::Listing;

/// Whether a listing is proved for a program, and else the first failure, as [`check`] tells; the listing's nodes go to
/// a tail over the program's nodes, which has none of its own before. A tail that is cleared keeps its room.
///
/// The tail's table is then the one that the symbolic run leaves. The one error is want of memory, after which it is a
/// first part of that table. In either case the tail is ready for the next listing once it is cleared.
#[tactic(auto, using(crate::proofs::AtEnd::verdicts))]
pub fn check_on(
    alloc: Global,
    prepared: &Prepared,
    tail: &mut Tail<'_>,
    listing: &Listing,
) -> Result<Verdict, AllocError>
    requires base { tail.now.base ≡ (source_made prepared.now).table }
    requires empty { tail.now.own ≡ [] }
    ensures verdict { IfOk result (IsVerdict prepared.entry.now listing.entry.now.lines) }
    ensures correct { IfOk result (SaysCorrect prepared.entry.now listing.entry.now.lines) }
    ensures table { OnOk result (joined_nodes tail.new ≡ (run_of prepared.entry.now listing.entry.now.lines).table) }
    ensures part { OnErr result (Prefix (joined_nodes tail.new)
        (run_of prepared.entry.now listing.entry.now.lines).table) }
    ensures base { tail.new.base ≡ tail.old.base }
{
    let _ = listing.lines();
    let _ = prepared.program().params();
    match run_listing(alloc, prepared, tail, listing)? {
        Ending::Stuck(line) => Ok(Verdict::Not(Why::Stuck { line })),
        Ending::Ended(state) => Ok(verdict_on(&state, prepared.outputs())),
    }
}

/// Whether a listing is proved for a program, and else the first failure: a line that is stuck, then the first output
/// word with another node, then the first saved register that is not restored, then the stack pointer. A proved
/// listing is correct for the program. The one error is want of memory.
pub fn check(alloc: Global, prepared: &Prepared, listing: &Listing) -> Result<Verdict, AllocError>
    ensures verdict { IfOk result (IsVerdict prepared.now listing.now.lines) }
    ensures correct { IfOk result (SaysCorrect prepared.now listing.now.lines) }
{
    let mut tail = Tail::new(alloc, prepared.base());
    check_on(alloc, prepared, &mut tail, listing)
}
