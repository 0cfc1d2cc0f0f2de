ghost use Rattle.std.specs.Prelude.{◌≡◌, ◌<◌, ◌≤◌, ◌*◌, ℕ, [], length, IfOk, MatchOption};
ghost use Rattle.std.specs.Arc.{arc_value};
ghost use Rattle.std.specs.Vec.{vec_capacity};
ghost use Rattle.base.specs.declared.limits.TheConstants.{MAX_LINES};
ghost use Rattle.op_order.specs.Plans.{opening_of};
ghost use Rattle.cost_table.specs.Costs.{cost_of};
ghost use Rattle.equiv_validator.specs.Kept.{HasChecks};
ghost use Rattle.journal_rules.specs.declared.limits.TheConstants.{MAX_ENTRIES, MAX_LANES, MAX_TURNS};
ghost use Rattle.journal_rules.specs.Legal.{IsWhole, turns_of};
ghost use Rattle.journal_rules.specs.Machine as machine;
ghost use Rattle.incumbent_board.specs.Views.{Look, machine_of};
ghost use Rattle.incumbent_board.specs.BoardOk.{IsBoard};
ghost use Rattle.incumbent_board.specs.Calls as spec;
ghost use Rattle.incumbent_board.specs.Inside.{IsAwaited};

use crate::lanes::{Lane, enter, hold, new_lanes, plan_due};
use crate::offer::{Offer, Settled, Sight};
use base::Items;
use equiv_validator::Checked;
use journal_rules::{Entry, Journal};
use mutations::{Draw, Mutation, words};
use op_order::Plan;
use std::alloc::{AllocError, Global};
use std::marker::Model;
use std::sync::Arc;
use word_program::Program;

/// The best listing so far, the journal of every offer that was taken, and the plan that each lane looks at. Contracts
/// see a `BoardView`. Of its calls only [`Board::begin`] takes memory.
#[derive(Drop)]
pub struct Board {
    program: Arc<Program>,
    draw: Draw,
    seeds: Vec<u64>,
    turns: u32,
    opening: u64,
    entries: Vec<Entry>,
    lanes: Vec<Lane>,
    best: u32,
    incumbent: Checked,
    least: u64,
    scratch: Plan,
}

impl Model for Board {
    ghost use Rattle.incumbent_board.specs.Views.{BoardView};

    ghost Value = { BoardView };

    ghost use Rattle.incumbent_board.specs.Inside.{IsInside, view_of};

    ghost view = { view_of };

    ghost invariant = { IsInside };
}

/// What an offer that is due adds to its entry: how many entries its lane saw, and the mutation of the plan.
#[derive(Clone, Copy)]
struct Due {
    seen: u32,
    mutation: Mutation,
}

/// How many operations a program has, each of which has a slot.
fn slots_of(program: &Arc<Program>) -> u16
    ensures { result ≡ length (arc_value program.now).ops }
{
    program.ops().len() as u16
}

/// An empty journal with room for so many entries.
fn room_for(alloc: Global, count: usize) -> Result<Vec<Entry>, AllocError>
    ensures items { IfOk result (λ entries. entries.items ≡ []) }
    ensures room { IfOk result (λ entries. count ≤ vec_capacity entries) }
{
    Vec::with_capacity(alloc, count)
}

/// The seeds, to be kept.
fn kept_seeds(alloc: Global, seeds: &[u64]) -> Result<Vec<u64>, AllocError>
    ensures { IfOk result (λ kept. kept.items ≡ seeds.now) }
{
    let mut kept = Vec::with_capacity(alloc, seeds.len())?;
    kept.extend_from_slice(seeds)?;
    Ok(kept)
}

/// That a checked listing is not too long.
fn short(opening: &Checked)
    ensures short { length opening.now.listing.lines ≤ MAX_LINES }
    ensures checks { HasChecks opening.now }
{
    let _ = opening.listing().lines();
}

impl Board {
    /// The board of a search that begins: no entry, no look, and the checked listing of the opening plan as the
    /// incumbent. Each of 1 to 64 seeds has a lane, which makes so many turns, at most 65,536, and all lanes
    /// together at most 1,048,576. It reserves the whole journal, one plan for each
    /// lane and one more. The one error is want of memory, which drops the program and the opening.
    pub fn begin(
        alloc: Global,
        program: Arc<Program>,
        seeds: &[u64],
        turns: u32,
        draw: Draw,
        opening: Checked,
    ) -> Result<Board, AllocError>
        requires some { 1 ≤ length seeds.now }
        requires lanes { length seeds.now ≤ MAX_LANES }
        requires turns { turns ≤ MAX_TURNS }
        requires entries { length seeds.now * turns ≤ MAX_ENTRIES }
        requires program { opening.program ≡ arc_value program }
        requires plan { opening.plan.slots ≡ opening_of (arc_value program) }
        ensures { IfOk result (λ board. board ≡ spec.begun (record {
          program = arc_value program;
          draw = draw;
          seeds = seeds.now;
          turns = turns;
          opening = cost_of opening.listing.lines;
        }) opening) }
    {
        let slots = slots_of(&program);
        let lanes = new_lanes(alloc, seeds.len(), slots)?;
        let entries = room_for(alloc, seeds.len() * turns as usize)?;
        let kept = kept_seeds(alloc, seeds)?;
        let scratch = Plan::with_room(alloc, slots)?;
        let least = opening.cost();
        short(&opening);
        Ok(Board {
            program,
            draw,
            seeds: kept,
            turns,
            opening: least,
            entries,
            lanes,
            best: 0,
            incumbent: opening,
            least,
            scratch,
        })
    }

    /// A look of a lane at the incumbent: its plan is put into `into`, which has room for all operations, and the board
    /// keeps that the lane saw it, in the place of an earlier look. None exactly where all turns of the lane are
    /// settled, and then nothing changes.
    pub fn look(&mut self, lane: u8, into: &mut Plan) -> Option<Sight>
        requires lane { lane < length self.old.setup.seeds }
        requires room { length self.old.setup.program.ops ≤ into.old.room }
        ensures sight { MatchOption result (self.old.setup.turns ≤ turns_of lane self.old.entries)
            (λ sight. (turns_of lane self.old.entries < self.old.setup.turns)
            × (sight ≡ spec.sight_of self.old lane)) }
        ensures board { MatchOption result (self.new ≡ self.old) (λ _. self.new ≡ spec.looked_at self.old lane) }
        ensures into { MatchOption result (into.new ≡ into.old)
            (λ _. into.new ≡ record { slots = self.old.incumbent.plan.slots; room = into.old.room }) }
        ensures event { machine.Step self.old.setup (machine_of self.old) (machine.Look lane) (machine_of self.new) }
    {
        let turn = self.lanes[lane as usize].turn;
        if self.turns <= turn {
            return None;
        }
        let seen = self.entries.len() as u32;
        let plan = self.incumbent.plan();
        plan.copy_into(into);
        hold(&mut self.lanes, lane, seen, plan);
        Some(Sight {
            lane,
            turn,
            seen,
            seed: self.seeds[lane as usize],
            draw: self.draw,
        })
    }

    /// How many entries the look saw that an offer is for. The plan of the offer is not looked at.
    fn awaited(&self, lane: u8, offer: &Offer) -> Option<u32>
        ensures { MatchOption result (spec.IsForeign self.now lane offer.now)
            (λ seen. (look : Look) × (look.seen ≡ seen) × IsAwaited self.now lane offer.now look) }
    {
        if self.lanes.len() <= lane as usize {
            return None;
        }
        let Some(seen) = self.lanes[lane as usize].seen else {
            return None;
        };
        if offer.lane != lane {
            return None;
        }
        if offer.turn != self.lanes[lane as usize].turn {
            return None;
        }
        if !offer.checked.program().same(&self.program) {
            return None;
        }
        Some(seen)
    }

    /// What the offer adds to its entry, where it is due.
    fn due(&mut self, lane: u8, offer: &Offer) -> Option<Due>
        ensures same { self.new ≡ self.old }
        ensures due { MatchOption result (spec.IsForeign self.old lane offer.now)
            (λ due. (look : Look) × spec.IsDue self.old lane offer.now look × (due.seen ≡ look.seen)
            × (due.mutation ≡ spec.mutation_due self.old lane look)) }
    {
        let Some(seen) = self.awaited(lane, offer) else {
            return None;
        };
        let mutation = plan_due(
            &self.program,
            &self.lanes[lane as usize].plan,
            words(self.seeds[lane as usize], offer.turn),
            self.draw,
            &mut self.scratch,
        );
        if !self.scratch.same(offer.checked.plan()) {
            return None;
        }
        Some(Due { seen, mutation })
    }

    /// Takes an offer of a lane. An offer that the lane owes, for its look, becomes the next entry, and ends the look:
    /// it is accepted as the incumbent where it costs at most as much as the incumbent, and else the incumbent is kept.
    /// Every other offer is foreign: it comes back, and nothing changes.
    pub fn settle(&mut self, lane: u8, offer: Offer) -> Settled
        ensures settled { spec.IsSettled self.old lane offer result self.new }
        ensures event { spec.IsEvent self.old lane offer result self.new }
    {
        let Some(due) = self.due(lane, &offer) else {
            return Settled::Foreign(offer);
        };
        let cost = offer.cost();
        let entry = Entry {
            lane,
            turn: offer.turn,
            seen: due.seen,
            mutation: due.mutation,
            cost,
            plain: offer.plain,
        };
        enter(&mut self.entries, &mut self.lanes, entry);
        let number = self.entries.len() as u32;
        let dearer = self.least < cost;
        if dearer {
            return Settled::Kept(number);
        }
        self.best = number;
        self.least = cost;
        self.incumbent = offer.checked;
        Settled::Accepted(number)
    }

    /// The entries so far. They are numbered from 1, and are never more than all lanes have turns. They are all there
    /// where each lane has made its turns.
    pub fn entries(&self) -> &[Entry]
        ensures entries { result.now ≡ self.now.entries }
        ensures within { length self.now.entries ≤ length self.now.setup.seeds * self.now.setup.turns }
        ensures whole { ((lane : ℕ) → lane < length self.now.setup.seeds
            → self.now.setup.turns ≤ turns_of lane self.now.entries) → IsWhole self.now.setup self.now.entries }
        ensures board { IsBoard self.now }
    {
        self.entries.as_slice()
    }

    /// The last one of least cost among the opening and the offers.
    pub fn incumbent(&self) -> &Checked
        ensures incumbent { result.now ≡ self.now.incumbent }
        ensures board { IsBoard self.now }
    {
        &self.incumbent
    }

    /// The incumbent's number: that of its entry, or 0 for the opening.
    pub fn best(&self) -> u32
        ensures best { result ≡ self.now.best }
        ensures board { IsBoard self.now }
    {
        self.best
    }

    /// What the opening costs.
    pub fn opening_cost(&self) -> u64
        ensures { result ≡ self.now.setup.opening }
    {
        self.opening
    }

    /// How many lanes there are.
    pub fn lanes(&self) -> u8
        ensures { result ≡ length self.now.setup.seeds }
    {
        self.seeds.len() as u8
    }

    /// How many turns a lane has.
    pub fn turns(&self) -> u32
        ensures { result ≡ self.now.setup.turns }
    {
        self.turns
    }

    /// The seed of each lane.
    pub fn seeds(&self) -> &[u64]
        ensures { result.now ≡ self.now.setup.seeds }
    {
        self.seeds.as_slice()
    }

    /// Which kinds of mutation are drawn.
    pub fn draw(&self) -> Draw
        ensures { result ≡ self.now.setup.draw }
    {
        self.draw
    }

    /// The journal of the search, of a program whose file has this digest. It takes no memory.
    pub fn into_journal(self, digest: [u8; 32]) -> Journal
        ensures { result ≡ record {
          draw = self.setup.draw;
          digest = digest;
          seeds = self.setup.seeds;
          turns = self.setup.turns;
          opening = self.setup.opening;
          entries = self.entries;
        } }
    {
        Journal {
            draw: self.draw,
            digest,
            seeds: Items::from_vec(self.seeds),
            turns: self.turns,
            opening: self.opening,
            entries: Items::from_vec(self.entries),
        }
    }
}
