ghost use Rattle.std.specs.Prelude.{◌≡◌, ◌≤◌, ◌∷◌, ◌++◌, [], List, length, OnOk, OnErr};
ghost use Rattle.std.specs.List.{AllByRecursion};
ghost use Rattle.journal_rules.specs.Machine as machine;
ghost use Rattle.incumbent_board.specs.Views.{machine_of};
ghost use Rattle.incumbent_board.specs.declared.events.Event.TheVariants.{Settle};
ghost use Rattle.incumbent_board.specs.Events.{HasPlayed, IsPlayable, IsPlayed, entries_made, taken_in};

use crate::board::Board;
use crate::offer::{Offer, Settled};
use op_order::Plan;
use std::alloc::{AllocError, Global};
use std::marker::Model;

/// What a lane does to a board.
#[derive(Drop)]
pub enum Event {
    /// The lane looks at the incumbent.
    Look { lane: u8 },
    /// It offers a listing.
    Settle { lane: u8, offer: Offer },
}

/// Events in order. Contracts see their list.
#[derive(Drop)]
pub struct Events {
    events: Vec<Event>,
}

impl Model for Events {
    ghost use Rattle.std.specs.Prelude.{List};
    ghost use Rattle.incumbent_board.specs.declared.events.Event.{Event};

    ghost Value = { List Event };

    ghost view = { λ e. e.events.items };
}

impl Events {
    /// No event, which takes no memory yet.
    pub fn new(alloc: Global) -> Events
        ensures { result ≡ [] }
    {
        Events {
            events: Vec::new(alloc),
        }
    }

    /// Puts an event at the end. The one error is want of memory, which drops the event.
    pub fn push(&mut self, event: Event) -> Result<(), AllocError>
        ensures ok { OnOk result (self.new ≡ self.old ++ event ∷ []) }
        ensures err { OnErr result (self.new ≡ self.old) }
    {
        self.events.push(event)?;
        Ok(())
    }
}

/// How many entries an answer makes.
fn made_by(answer: Settled) -> u32
    ensures { result ≡ entries_made answer }
{
    match answer {
        Settled::Accepted(_) => 1,
        Settled::Kept(_) => 1,
        Settled::Foreign(_) => 0,
    }
}

/// Offers a listing, and gives how many entries that makes: 1, or 0 where it is foreign.
fn offer_to(board: &mut Board, lane: u8, offer: Offer) -> u32
    ensures { HasPlayed board.old (Settle lane offer ∷ []) board.new result }
{
    let answer = board.settle(lane, offer);
    made_by(answer)
}

/// Plays one event, and gives how many offers were taken.
fn play_one(board: &mut Board, into: &mut Plan, event: Event) -> u32
    requires room { length board.old.setup.program.ops ≤ into.old.room }
    requires look { IsPlayable (length board.old.setup.seeds) event }
    ensures played { HasPlayed board.old (event ∷ []) board.new result }
    ensures room { into.new.room ≡ into.old.room }
{
    match event {
        Event::Look { lane } => {
            let _ = board.look(lane, into);
            0
        }
        Event::Settle { lane, offer } => offer_to(board, lane, offer),
    }
}

/// Plays looks and offers, each of a lane that exists, one after the other, and gives how many offers were taken. The
/// plans that lanes look at come into `into`, which has room for all operations. Offers that are foreign are dropped.
/// It takes no memory.
pub fn play(board: &mut Board, into: &mut Plan, events: Events) -> u32
    requires room { length board.old.setup.program.ops ≤ into.old.room }
    requires looks { AllByRecursion (IsPlayable (length board.old.setup.seeds)) events }
    ensures played { (steps : List machine.Event) × IsPlayed board.old events steps board.new
        × machine.Run board.old.setup (machine_of board.old) steps (machine_of board.new)
        × (result ≡ taken_in steps) }
    ensures room { into.new.room ≡ into.old.room }
{
    let mut taken = 0;
    for event in events.events {
        let more = play_one(board, into, event);
        let _ = board.entries();
        taken += more;
    }
    taken
}
