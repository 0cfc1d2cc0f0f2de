//! The lanes of a journal: what each has done, and where it looks next.
ghost use Rattle.std.specs.Prelude.{◌≡◌, ◌≤◌, ◌<◌, length, map, slice_set, nat_lt, if◌then◌else◌, IfOk};
ghost use Rattle.std.specs.List.{All, range_with_len};
ghost use Rattle.journal_replay.specs.Inside as spec;

use journal_rules::Entry;
use op_order::Plan;
use std::alloc::{AllocError, Global};

/// A lane: how many entries it made, the number of its last one or 0, how many entries its next one saw, and the plan
/// of that look once the incumbent has changed since.
#[derive(Drop)]
pub struct Lane {
    pub turn: u32,
    pub last: u32,
    pub next: u32,
    pub plan: Plan,
}

/// How many entries the first one of a lane saw among these, or 0 where it has none. From one entry of a lane to the
/// next all such walks together go over each entry once a lane.
pub fn next_seen(lane: u8, entries: &[Entry]) -> u32
    ensures { result ≡ spec.next_seen lane entries.now }
{
    for entry in entries {
        if entry.lane == lane {
            return entry.seen;
        }
    }
    0
}

/// So many lanes before these entries, with room for plans of so many slots.
pub fn new_lanes(
    alloc: Global,
    count: usize,
    slots: u16,
    entries: &[Entry],
) -> Result<Vec<Lane>, AllocError>
    requires { count ≤ 64 }
    ensures { IfOk result (λ lanes. lanes.items ≡ map (spec.fresh entries.now slots) (range_with_len 0 count)) }
{
    let mut lanes = Vec::with_capacity(alloc, count)?;
    for lane in 0..count {
        lanes.push(Lane {
            turn: 0,
            last: 0,
            next: next_seen(lane as u8, entries),
            plan: Plan::with_room(alloc, slots)?,
        })?;
    }
    Ok(lanes)
}

/// Keeps a plan for a lane that looks next after a number of entries in this range.
fn keep_look(lane: &mut Lane, from: u32, to: u32, plan: &Plan)
    requires { length plan.now.slots ≤ lane.old.plan.room }
    ensures { lane.new ≡ spec.kept from to plan.now.slots lane.old }
{
    if from <= lane.next && lane.next <= to {
        plan.copy_into(&mut lane.plan);
    }
}

/// Keeps it for each such lane.
pub fn keep_looks(lanes: &mut Vec<Lane>, from: u32, to: u32, plan: &Plan)
    requires { All (λ lane. length plan.now.slots ≤ lane.plan.room) lanes.old.items }
    ensures { lanes.new.items ≡ map (spec.kept from to plan.now.slots) lanes.old.items }
{
    for at in 0..lanes.len() {
        keep_look(&mut lanes[at], from, to, plan);
    }
}

/// A lane goes on behind an entry of its own.
pub fn go_on(lanes: &mut Vec<Lane>, lane: u8, number: u32, next: u32)
    requires lane { lane < length lanes.old.items }
    requires turn { (spec.lane_at lanes.old.items lane).turn ≤ 1048576 }
    ensures { lanes.new.items
        ≡ slice_set lanes.old.items lane (spec.behind number next (spec.lane_at lanes.old.items lane)) }
{
    let place = &mut lanes[lane as usize];
    place.turn += 1;
    place.last = number;
    place.next = next;
}

/// The plan that a lane sees next: the one that it keeps where the incumbent has changed since, or the incumbent's.
pub fn look_of<'a>(lanes: &'a [Lane], lane: u8, best: u32, plan: &'a Plan) -> &'a Plan
    requires { lane < length lanes.now }
    ensures { result.now ≡ (if nat_lt (spec.lane_at lanes.now lane).next best
        then (spec.lane_at lanes.now lane).plan else plan.now) }
{
    let place = &lanes[lane as usize];
    if place.next < best {
        return &place.plan;
    }
    plan
}
