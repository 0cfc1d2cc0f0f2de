ghost use Rattle.std.specs.Prelude.{◌≡◌, IfOk, IfErr, MatchResult, Decides};
ghost use Rattle.std.specs.Arc.{arc_value};
ghost use Rattle.journal_text.specs.Limits.{IsWithin};
ghost use Rattle.journal_replay.specs.Checks.{IsFirstFault, IsIncumbentOf, Replays, given, last_number};
ghost use Rattle.journal_replay.specs.Inside.{IsFaultBehind, ReplaysBehind};

use crate::entries::play;
use crate::fault::ReplayFault;
use crate::listing::{check_listing, rename};
use crate::opening::check_opening;
use equiv_validator::Prepared;
use journal_rules::Journal;
use std::alloc::{AllocError, Global};
use std::sync::Arc;
use word_program::Program;
use x86_instr::Listing;

fn same_digest(one: &[u8; 32], other: &[u8; 32]) -> bool
    ensures { Decides result (one.now ≡ other.now) }
{
    one == other
}

fn prepare(alloc: Global, program: &Arc<Program>) -> Result<Prepared, AllocError>
    ensures { IfOk result (λ prepared. prepared ≡ arc_value program.now) }
{
    Prepared::new(alloc, Arc::try_clone(program)?)
}

/// Replays a journal of the program, and a listing.
fn replay_on(
    alloc: Global,
    prepared: &Prepared,
    journal: &Journal,
    listing: &Listing,
) -> Result<u32, ReplayFault>
    requires { IsWithin journal.now }
    ensures { MatchResult result (ReplaysBehind prepared.now journal.now listing.now)
        (IsFaultBehind prepared.now journal.now listing.now) }
{
    check_opening(alloc, prepared.program(), journal.opening)?;
    let player = play(alloc, prepared.program(), journal)?;
    let number = player.best();
    let recorded = player.least();
    let Ok(named) = rename(alloc, prepared.program(), listing) else {
        return Err(ReplayFault::Memory);
    };
    match check_listing(alloc, prepared, player.into_plan(), named, recorded) {
        Ok(()) => Ok(number),
        Err(fault) => Err(fault),
    }
}

/// Replays a journal for a program of which the file has this digest, and checks the listing against it: the number of
/// the incumbent after all entries, exactly where all checks hold. Else the fault is that of the first check that
/// fails: `Digest`, where the digests differ; `Cost`, where the journal's cost of the opening is not that of the plain
/// listing of the opening plan; `Entry`, where an entry breaks a rule, or entries are missing; `Realises`, where the
/// listing does not realise the plan of the incumbent; `Cost`, where it has another cost than the journal says of the
/// incumbent; and `NotProved`, where it is not proved for the program. `Memory` comes only where memory runs out.
///
/// The name of the listing counts for nothing. It takes memory for a plan a lane and for the check of the listing, and
/// none for an entry.
pub fn replay(
    alloc: Global,
    program: &Arc<Program>,
    digest: [u8; 32],
    journal: &Journal,
    listing: Listing,
) -> Result<u32, ReplayFault>
    requires { IsWithin journal.now }
    ensures replayed { IfOk result (λ number. Replays (given (arc_value program.now) digest journal.now listing)
        × (number ≡ last_number (given (arc_value program.now) digest journal.now listing))) }
    ensures incumbent { IfOk result (IsIncumbentOf (given (arc_value program.now) digest journal.now listing)) }
    ensures fault { IfErr result (IsFirstFault (given (arc_value program.now) digest journal.now listing)) }
{
    if !same_digest(&journal.digest, &digest) {
        return Err(ReplayFault::Digest {
            journal: journal.digest,
            program: digest,
        });
    }
    let Ok(prepared) = prepare(alloc, program) else {
        return Err(ReplayFault::Memory);
    };
    replay_on(alloc, &prepared, journal, &listing)
}
