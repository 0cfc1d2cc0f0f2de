//! All entries of a journal.
ghost use Rattle.std.specs.Prelude.{[], MatchOption, MatchResult};
ghost use Rattle.journal_text.specs.Limits.{IsWithin};
ghost use Rattle.journal_rules.specs.Legal.{IsWhole};
ghost use Rattle.journal_replay.specs.Checks.{setup_in};
ghost use Rattle.journal_replay.specs.Inside.{IsEntryFault, IsPlayed};
ghost use Rattle.journal_replay.specs.Rules.{HasFaultyEntry};

use crate::fault::ReplayFault;
use crate::player::Player;
use journal_rules::Journal;
use std::alloc::{AllocError, Global};
use word_program::Program;

/// The first rule that a journal breaks, and the entry with which it does.
#[derive(Clone, Copy)]
struct Broken {
    number: u32,
    rule: u8,
}

/// Plays all entries, up to the first one that breaks a rule.
fn play_entries(program: &Program, journal: &Journal, player: &mut Player) -> Option<Broken>
    requires within { IsWithin journal.now }
    requires begun { IsPlayed (setup_in program.now journal.now) [] journal.now.entries player.old }
    ensures { MatchOption result
        (IsPlayed (setup_in program.now journal.now) journal.now.entries [] player.new)
        (λ broken. HasFaultyEntry (setup_in program.now journal.now) journal.now.entries broken.number broken.rule) }
{
    for at in 0..journal.entries.items().len() as u32 {
        let entry = journal.entries.items()[at as usize];
        if let Some(rule) = player.step(program, journal, at, entry) {
            return Some(Broken {
                number: at + 1,
                rule,
            });
        }
    }
    None
}

/// Plays the whole journal.
pub fn play(alloc: Global, program: &Program, journal: &Journal) -> Result<Player, ReplayFault>
    requires { IsWithin journal.now }
    ensures { MatchResult result
        (λ player. IsPlayed (setup_in program.now journal.now) journal.now.entries [] player
        × IsWhole (setup_in program.now journal.now) journal.now.entries)
        (IsEntryFault (setup_in program.now journal.now) journal.now.entries) }
{
    let Ok(mut player) = Player::begin(alloc, program, journal) else {
        return Err(ReplayFault::Memory);
    };
    if let Some(broken) = play_entries(program, journal, &mut player) {
        return Err(ReplayFault::Entry {
            number: broken.number,
            rule: broken.rule,
        });
    }
    let count = journal.entries.items().len();
    if count < journal.seeds.items().len() * journal.turns as usize {
        return Err(ReplayFault::Entry {
            number: count as u32 + 1,
            rule: 6,
        });
    }
    Ok(player)
}
