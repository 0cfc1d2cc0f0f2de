//! The lanes of a board, and what looks and offers do to them.
ghost use Rattle.std.specs.Prelude.{◌≡◌, ◌<◌, ◌≤◌, ◌+◌, ◌++◌, ◌∷◌, [], length, replicate, slice_set, IfOk};
ghost use Rattle.std.specs.Vec.{vec_capacity};
ghost use Rattle.op_order.specs.Legal.{IsLegal};
ghost use Rattle.mutations.specs.Mutations as spec;
ghost use Rattle.incumbent_board.specs.Inside.{ended, fresh, held, lane_at};

use journal_rules::Entry;
use mutations::{Draw, Mutation, apply, drawn};
use op_order::Plan;
use std::alloc::{AllocError, Global};
use word_program::Program;

/// A lane: how many offers it made, and its look, where it has one that it did not settle yet. The plan is that of the
/// look, and else left over.
#[derive(Drop)]
pub struct Lane {
    pub turn: u32,
    pub seen: Option<u32>,
    pub plan: Plan,
}

/// So many lanes with room for plans of so many slots.
pub fn new_lanes(alloc: Global, count: usize, slots: u16) -> Result<Vec<Lane>, AllocError>
    ensures { IfOk result (λ lanes. lanes.items ≡ replicate count (fresh slots)) }
{
    let mut lanes = Vec::with_capacity(alloc, count)?;
    for _ in 0..count {
        lanes.push(Lane {
            turn: 0,
            seen: None,
            plan: Plan::with_room(alloc, slots)?,
        })?;
    }
    Ok(lanes)
}

/// Gives a lane a look at a plan, in the place of one that it may have.
pub fn hold(lanes: &mut Vec<Lane>, lane: u8, seen: u32, plan: &Plan)
    requires lane { lane < length lanes.old.items }
    requires room { length plan.now.slots ≤ (lane_at lanes.old.items lane).plan.room }
    ensures { lanes.new.items
        ≡ slice_set lanes.old.items lane (held seen plan.now.slots (lane_at lanes.old.items lane)) }
{
    let place = &mut lanes[lane as usize];
    plan.copy_into(&mut place.plan);
    place.seen = Some(seen);
}

/// Ends the look of a lane, which has made one offer more.
fn end_look(lanes: &mut Vec<Lane>, lane: u8)
    requires lane { lane < length lanes.old.items }
    requires turn { (lane_at lanes.old.items lane).turn ≤ 65535 }
    ensures { lanes.new.items ≡ slice_set lanes.old.items lane (ended (lane_at lanes.old.items lane)) }
{
    let place = &mut lanes[lane as usize];
    place.turn += 1;
    place.seen = None;
}

/// Appends an entry, for which there is room, and ends the look of its lane.
pub fn enter(entries: &mut Vec<Entry>, lanes: &mut Vec<Lane>, entry: Entry)
    requires room { length entries.old.items < vec_capacity entries.old }
    requires lane { entry.lane < length lanes.old.items }
    requires turn { (lane_at lanes.old.items entry.lane).turn ≤ 65535 }
    ensures entries { entries.new.items ≡ entries.old.items ++ entry ∷ [] }
    ensures capacity { vec_capacity entries.old ≤ vec_capacity entries.new }
    ensures lanes { lanes.new.items
        ≡ slice_set lanes.old.items entry.lane (ended (lane_at lanes.old.items entry.lane)) }
{
    entries.push(entry).unwrap();
    end_look(lanes, entry.lane);
}

/// The mutation that a seed draws at a turn for the plan of a look; and in `into` that plan after it.
pub fn plan_due(
    program: &Program,
    look: &Plan,
    words: [u32; 4],
    draw: Draw,
    into: &mut Plan,
) -> Mutation
    requires legal { IsLegal program.now look.now.slots }
    requires room { length look.now.slots ≤ into.old.room }
    ensures mutation { result ≡ spec.drawn program.now look.now.slots words draw }
    ensures plan { into.new.slots ≡ spec.applied program.now result look.now.slots }
    ensures room { into.new.room ≡ into.old.room }
{
    let mutation = drawn(program, look, words, draw);
    look.copy_into(into);
    apply(program, mutation, into);
    mutation
}
