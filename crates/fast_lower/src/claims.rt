//! The test of a listing for what a fast listing keeps.
ghost use Rattle.std.specs.Prelude.{◌≡◌, ◌↔◌, ◌≤◌, ◌/◌, length, IsTrue};
ghost use Rattle.x86_instr.specs.declared.listing.TheConstants.{MAX_FRAME_BYTES};
ghost use Rattle.x86_instr.specs.Frame.{frame_of};
ghost use Rattle.op_order.specs.Legal.{IsLegal};
ghost use Rattle.op_order.specs.Realises.{Realises};
ghost use Rattle.fast_lower.specs.Named as named;
ghost use Rattle.fast_lower.specs.Fast as spec;

use crate::named::preserved_count;
use crate::ruled::keep_rule;
use equiv_validator::first_difference;
use op_order::Plan;
use word_program::{Program, Target};
use x86_instr::{Listing, MAX_FRAME_BYTES};

fn has_name(program: &Program, listing: &Listing) -> bool
    ensures { IsTrue result ↔ (listing.now.name ≡ program.now.name) }
{
    listing.name().as_str() == program.name().as_str()
}

fn realises(program: &Program, plan: &Plan, listing: &Listing) -> bool
    requires { IsLegal program.now plan.now.slots }
    ensures { IsTrue result ↔ Realises program.now plan.now.slots listing.now }
{
    match first_difference(program, plan, listing) {
        None => true,
        Some(_) => false,
    }
}

fn is_output_word(target: &Target) -> bool
    ensures { result ≡ spec.is_output_word target.now }
{
    matches!(target, Target::Output { .. })
}

/// How many results go to an output word.
fn output_words(program: &Program) -> usize
    ensures { result ≡ spec.output_words program.now }
{
    program
        .targets()
        .iter()
        .filter(|target| is_output_word(target))
        .count()
}

/// How many lines a fast listing has at most.
fn most_lines(program: &Program) -> usize
    ensures { result ≡ spec.most_lines program.now }
{
    28 * program.ops().len() + 64 + 4 * output_words(program)
}

fn is_small(program: &Program, listing: &Listing) -> bool
    ensures { IsTrue result ↔
        ((frame_of listing.now.lines ≤ MAX_FRAME_BYTES) × (length listing.now.lines ≤ spec.most_lines program.now)) }
{
    listing.frame() as usize <= MAX_FRAME_BYTES && listing.lines().len() <= most_lines(program)
}

/// Whether the frame has room for the preserved registers that the lines name.
fn has_room(listing: &Listing) -> bool
    ensures { IsTrue result ↔ (named.preserved_count listing.now.lines ≤ frame_of listing.now.lines / 8) }
{
    preserved_count(listing.lines()) <= listing.frame() as usize / 8
}

/// Whether the listing is a fast one of the plan. It takes no memory, and goes over the lines a few times.
pub fn is_fast(program: &Program, plan: &Plan, listing: &Listing) -> bool
    requires { IsLegal program.now plan.now.slots }
    ensures { IsTrue result ↔ spec.IsFast program.now plan.now.slots listing.now }
{
    has_name(program, listing)
        && realises(program, plan, listing)
        && is_small(program, listing)
        && has_room(listing)
        && keep_rule(program, plan.slots(), listing.lines())
}
