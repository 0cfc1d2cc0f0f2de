//! A journal that is played, entry by entry.
ghost use Rattle.std.specs.Prelude.{◌≡◌, ◌<◌, ◌≤◌, ◌+◌, [], Some, length, drop, take, slice_get, slice_index};
ghost use Rattle.std.specs.Prelude.{Decides, IfOk, MatchOption};
ghost use Rattle.std.specs.List.{All};
ghost use Rattle.op_order.specs.Legal.{IsLegal};
ghost use Rattle.mutations.specs.Mutations as spec;
ghost use Rattle.mutations.specs.Words.{words_of};
ghost use Rattle.journal_text.specs.Limits.{IsWithin};
ghost use Rattle.journal_replay.specs.Checks.{setup_in};
ghost use Rattle.journal_replay.specs.Inside.{IsPlayed, KeepsPlace, compared, gone_on, improved, lane_at, look_in};
ghost use Rattle.journal_replay.specs.Inside.{next_seen};
ghost use Rattle.journal_replay.specs.Rules.{BreaksFirst};

use crate::lanes::{Lane, go_on, keep_looks, look_of, new_lanes, next_seen};
use journal_rules::{Entry, Journal};
use mutations::{Mutation, apply, drawn, words};
use op_order::Plan;
use std::alloc::{AllocError, Global};
use std::marker::Model;
use word_program::Program;

/// The lanes of a journal and its incumbent behind some of its entries. Contracts see a `PlayerView`.
#[derive(Drop)]
pub struct Player {
    lanes: Vec<Lane>,
    best: u32,
    least: u64,
    plan: Plan,
    scratch: Plan,
}

impl Model for Player {
    ghost use Rattle.journal_replay.specs.Inside.{PlayerView};

    ghost Value = { PlayerView };

    ghost view = { λ p. record {
      lanes = p.lanes.items;
      best = p.best;
      least = p.least;
      plan = p.plan;
      scratch = p.scratch;
    } };
}

fn same_mutation(one: Mutation, other: Mutation) -> bool
    ensures { Decides result (one ≡ other) }
{
    one == other
}

impl Player {
    /// The opening, before any entry.
    pub fn begin(alloc: Global, program: &Program, journal: &Journal) -> Result<Player, AllocError>
        requires { IsWithin journal.now }
        ensures { IfOk result (λ player. IsPlayed (setup_in program.now journal.now) [] journal.now.entries player) }
    {
        let slots = program.ops().len() as u16;
        let lanes = new_lanes(
            alloc,
            journal.seeds.items().len(),
            slots,
            journal.entries.items(),
        )?;
        let plan = Plan::opening(alloc, program)?;
        let scratch = Plan::with_room(alloc, slots)?;
        Ok(Player {
            lanes,
            best: 0,
            least: journal.opening,
            plan,
            scratch,
        })
    }

    /// The first of the rules 1 to 4 that an entry breaks.
    fn place_rule(&self, program: &Program, journal: &Journal, at: u32, entry: Entry) -> Option<u8>
        requires low { at < length journal.now.entries }
        requires there { slice_get journal.now.entries at ≡ Some entry }
        requires played { IsPlayed (setup_in program.now journal.now) (take at journal.now.entries)
            (drop at journal.now.entries) self.now }
        ensures { MatchOption result
            (KeepsPlace (setup_in program.now journal.now) (take at journal.now.entries) entry)
            (BreaksFirst (setup_in program.now journal.now) (take at journal.now.entries) entry) }
    {
        if self.lanes.len() <= entry.lane as usize {
            return Some(1);
        }
        let lane = &self.lanes[entry.lane as usize];
        if entry.turn != lane.turn {
            return Some(2);
        }
        if journal.turns <= entry.turn {
            return Some(2);
        }
        if at < entry.seen {
            return Some(3);
        }
        if entry.seen < lane.last {
            return Some(4);
        }
        None
    }

    /// The mutation that is drawn for an entry, by the plan that its lane sees.
    fn mutation_due(&self, program: &Program, journal: &Journal, entry: Entry) -> Mutation
        requires lane { entry.lane < length self.now.lanes }
        requires seed { entry.lane < length journal.now.seeds }
        requires legal { IsLegal program.now (look_in self.now entry.lane).slots }
        ensures mutation { result ≡ spec.drawn program.now (look_in self.now entry.lane).slots
            (words_of (slice_index journal.now.seeds entry.lane) entry.turn) journal.now.draw }
        ensures fits { spec.Fits program.now (look_in self.now entry.lane).slots result }
    {
        let look = look_of(self.lanes.as_slice(), entry.lane, self.best, &self.plan);
        let seed = journal.seeds.items()[entry.lane as usize];
        drawn(program, look, words(seed, entry.turn), journal.draw)
    }

    /// The entry behind so many others is the incumbent: its plan is made of that which its lane sees, and the old
    /// incumbent's is kept for the lanes that look at it later.
    fn improve(&mut self, program: &Program, at: u32, entry: Entry)
        requires lane { entry.lane < length self.old.lanes }
        requires low { at ≤ 1048576 }
        requires legal { IsLegal program.now (look_in self.old entry.lane).slots }
        requires fits { spec.Fits program.now (look_in self.old entry.lane).slots entry.mutation }
        requires rooms { All (λ lane. length self.old.plan.slots ≤ lane.plan.room) self.old.lanes }
        requires scratch { length (look_in self.old entry.lane).slots ≤ self.old.scratch.room }
        requires plan { length program.now.ops ≤ self.old.plan.room }
        ensures { self.new ≡ improved program.now at entry self.old }
    {
        let look = look_of(self.lanes.as_slice(), entry.lane, self.best, &self.plan);
        look.copy_into(&mut self.scratch);
        apply(program, entry.mutation, &mut self.scratch);
        keep_looks(&mut self.lanes, self.best, at, &self.plan);
        self.scratch.copy_into(&mut self.plan);
        self.best = at + 1;
        self.least = entry.cost;
    }

    /// The entry is the incumbent where it costs no more than the incumbent.
    fn compare(&mut self, program: &Program, at: u32, entry: Entry)
        requires lane { entry.lane < length self.old.lanes }
        requires low { at ≤ 1048576 }
        requires legal { IsLegal program.now (look_in self.old entry.lane).slots }
        requires fits { spec.Fits program.now (look_in self.old entry.lane).slots entry.mutation }
        requires rooms { All (λ lane. length self.old.plan.slots ≤ lane.plan.room) self.old.lanes }
        requires scratch { length (look_in self.old entry.lane).slots ≤ self.old.scratch.room }
        requires plan { length program.now.ops ≤ self.old.plan.room }
        ensures { self.new ≡ compared program.now at entry self.old }
    {
        if entry.cost <= self.least {
            self.improve(program, at, entry);
        }
    }

    /// The entry's lane goes on.
    fn go_on(&mut self, at: u32, entry: Entry, rest: &[Entry])
        requires lane { entry.lane < length self.old.lanes }
        requires low { at ≤ 1048576 }
        requires turn { (lane_at self.old.lanes entry.lane).turn ≤ 1048576 }
        ensures { self.new ≡ gone_on (at + 1) (next_seen entry.lane rest.now) entry.lane self.old }
    {
        let next = next_seen(entry.lane, rest);
        go_on(&mut self.lanes, entry.lane, at + 1, next);
    }

    /// Plays the entry behind so many others, unless it breaks a rule: then it is the first one that it breaks.
    pub fn step(
        &mut self,
        program: &Program,
        journal: &Journal,
        at: u32,
        entry: Entry,
    ) -> Option<u8>
        requires within { IsWithin journal.now }
        requires low { at < length journal.now.entries }
        requires there { slice_get journal.now.entries at ≡ Some entry }
        requires played { IsPlayed (setup_in program.now journal.now) (take at journal.now.entries)
            (drop at journal.now.entries) self.old }
        ensures { MatchOption result
            (IsPlayed (setup_in program.now journal.now) (take (at + 1) journal.now.entries)
            (drop (at + 1) journal.now.entries) self.new)
            (BreaksFirst (setup_in program.now journal.now) (take at journal.now.entries) entry) }
    {
        if let Some(rule) = self.place_rule(program, journal, at, entry) {
            return Some(rule);
        }
        if !same_mutation(self.mutation_due(program, journal, entry), entry.mutation) {
            return Some(5);
        }
        self.compare(program, at, entry);
        self.go_on(at, entry, &journal.entries.items()[at as usize + 1..]);
        None
    }

    /// The incumbent's number.
    pub fn best(&self) -> u32
        ensures { result ≡ self.now.best }
    {
        self.best
    }

    /// What it costs.
    pub fn least(&self) -> u64
        ensures { result ≡ self.now.least }
    {
        self.least
    }

    /// Its plan.
    pub fn into_plan(self) -> Plan
        ensures { result ≡ self.plan }
    {
        self.plan
    }
}
