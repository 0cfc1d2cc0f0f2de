//! A law of the definitions: a function that does nothing, whose contract is the law.

ghost use Rattle.std.specs.Prelude.{◌≡◌, ℕ, Some, slice_get};
ghost use Rattle.incumbent_board.specs.declared.offer.Offer.{Offer};
ghost use Rattle.incumbent_board.specs.declared.offer.Sight.{Sight};
ghost use Rattle.incumbent_board.specs.Calls.{IsDue};
ghost use Rattle.incumbent_board.specs.Views.{BoardView, Look};
ghost use Rattle.search_workers.specs.Offers.{IsOfferFor, IsSightOf};

/// The offer for what a lane was told at its look, and for the plan of that look, is the one that the lane owes. So a
/// board that keeps the look takes the offer: it is not foreign.
pub fn offers_are_due()
    ensures { (b : BoardView) (lane : ℕ) (look : Look) (sight : Sight) (offer : Offer)
        → slice_get b.looks lane ≡ Some (Some look) → IsSightOf b lane sight
        → IsOfferFor b.setup.program sight look.slots offer → IsDue b lane offer look }
{}
