ghost use Rattle.std.specs.Prelude.{◌≡◌, ◌≤◌, nat_le, length, IfOk};
ghost use Rattle.base.specs.declared.limits.TheConstants.{MAX_LINES};
ghost use Rattle.cost_table.specs.Costs.{cost_of};
ghost use Rattle.equiv_validator.specs.Kept.{HasChecks};
ghost use Rattle.journal_rules.specs.Backed.{plain_cost};

use cost_table::cost;
use equiv_validator::Checked;
use mutations::Draw;
use plain_lower::plain;
use std::alloc::{AllocError, Global};

/// What a lane that looked is told, beside the incumbent's plan.
#[derive(Clone, Copy, Debug, PartialEq, Eq)]
pub struct Sight {
    /// The lane that looked, counted from 0.
    pub lane: u8,
    /// Its next turn, counted from 0.
    pub turn: u32,
    /// How many entries the journal has.
    pub seen: u32,
    /// The lane's seed.
    pub seed: u64,
    /// Which kinds of mutation are drawn.
    pub draw: Draw,
}

/// A checked listing that a lane offers at a turn.
#[derive(Drop)]
pub struct Offer {
    /// The lane that offers, counted from 0.
    pub lane: u8,
    /// Its turn, counted from 0.
    pub turn: u32,
    /// The program, the plan and the listing.
    pub checked: Checked,
    /// Whether the listing costs at least what the plain listing of its program and plan costs.
    pub plain: bool,
    /// What the listing costs.
    cost: u64,
    ghost mark: { plain ≡ nat_le (plain_cost checked.program checked.plan.slots) (cost_of checked.listing.lines) },
    ghost cost_is: { cost ≡ cost_of checked.listing.lines },
    ghost short: { length checked.listing.lines ≤ MAX_LINES },
}

/// What a board answers to an offer.
#[derive(Drop)]
pub enum Settled {
    /// It is the entry with this number, and the incumbent.
    Accepted(u32),
    /// It is the entry with this number, and costs more than the incumbent, which stays.
    Kept(u32),
    /// It is not the offer that the lane owes, and comes back.
    Foreign(Offer),
}

impl Offer {
    /// The offer of these parts, with its mark. The one error is want of memory, which drops the checked listing.
    #[tactic(auto, unfolding(journal_rules::specs::Backed::plain_cost))]
    pub fn new(alloc: Global, lane: u8, turn: u32, checked: Checked) -> Result<Offer, AllocError>
        ensures lane { IfOk result (λ offer. offer.lane ≡ lane) }
        ensures turn { IfOk result (λ offer. offer.turn ≡ turn) }
        ensures checked { IfOk result (λ offer. offer.checked ≡ checked) }
    {
        let listing = plain(alloc, checked.program(), checked.plan())?;
        let least = cost(&listing);
        let cost = checked.cost();
        let _ = checked.listing().lines();
        Ok(Offer {
            lane,
            turn,
            checked,
            plain: least <= cost,
            cost,
        })
    }

    /// What the listing costs.
    pub(crate) fn cost(&self) -> u64
        ensures cost { result ≡ cost_of self.now.checked.listing.lines }
        ensures checks { HasChecks self.now.checked }
    {
        let _ = self.checked.plan();
        self.cost
    }
}
