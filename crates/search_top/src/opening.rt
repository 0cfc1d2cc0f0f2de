ghost use Rattle.std.specs.Prelude.{◌≡◌, [], ◌∷◌, ◌++◌, IfOk, codes, decimal, string_bytes};
ghost use Rattle.asm_text.specs.Assembly.{text_of};
ghost use Rattle.cost_table.specs.Costs.{cost_of};
ghost use Rattle.command_frame.specs.Files as files;
ghost use Rattle.op_order.specs.Plans as plans;
ghost use Rattle.equiv_validator.specs.Kept.{HasChecks};
ghost use Rattle.search_top.specs.Search.{IsFit, SearchMeans, opening_listing};

use asm_text::write;
use equiv_validator::{Checked, Prepared};
use op_order::Plan;
use plain_checks::checked_plain;
use std::alloc::{AllocError, Global};
use std::sync::Arc;
use word_program::Program;

/// The opening of a search: the plain listing of a program's opening plan.
#[derive(Drop)]
pub struct Opening {
    /// The text of the listing.
    pub text: Vec<u8>,
    /// The line that tells its cost.
    pub line: String,
}

/// The opening of the program. The one error is want of memory.
pub fn opening_of(alloc: Global, program: Program) -> Result<Opening, AllocError>
    ensures { IfOk result (λ o. SearchMeans (files.Program program ∷ [])
        (record { texts = o.text.items ∷ []; word = string_bytes o.line })) }
{
    let prepared = prepare(alloc, program)?;
    let checked = checked_opening(alloc, &prepared)?;
    let opening = published(alloc, &checked)?;
    Ok(opening)
}

/// The program, prepared for checks. The one error is want of memory.
pub fn prepare(alloc: Global, program: Program) -> Result<Prepared, AllocError>
    ensures { IfOk result (λ prepared. prepared ≡ program) }
{
    let program = Arc::new(alloc, program)?;
    Prepared::new(alloc, program)
}

/// The plain listing of the program's opening plan, checked and kept with the plan. The one error is want of memory.
pub fn checked_opening(alloc: Global, prepared: &Prepared) -> Result<Checked, AllocError>
    ensures program { IfOk result (λ c. c.program ≡ prepared.now) }
    ensures plan { IfOk result (λ c. c.plan.slots ≡ plans.opening_of prepared.now) }
    ensures listing { IfOk result (λ c. c.listing ≡ opening_listing prepared.now) }
    ensures checks { IfOk result HasChecks }
{
    let plan = Plan::opening(alloc, prepared.program())?;
    checked_plain(alloc, prepared, plan)
}

/// What is published of a listing that was checked: its text, and the line that tells its cost.
fn published(alloc: Global, checked: &Checked) -> Result<Opening, AllocError>
    ensures text { IfOk result (λ o. o.text.items ≡ text_of checked.now.listing) }
    ensures line { IfOk result (λ o. string_bytes o.line
        ≡ codes "opening " ++ (decimal (cost_of checked.now.listing.lines) ++ codes "\n")) }
    ensures fit { IfOk result (λ o. IsFit checked.now.program checked.now.listing) }
{
    let _ = checked.program().params();
    let text = write(alloc, checked.listing())?;
    let line = opening_line(alloc, checked.cost())?;
    Ok(Opening { text, line })
}

fn opening_line(alloc: Global, cost: u64) -> Result<String, AllocError>
    ensures { IfOk result (λ line. string_bytes line ≡ codes "opening " ++ (decimal cost ++ codes "\n")) }
{
    format!(in alloc; "opening {cost}\n")
}
