ghost use Rattle.std.specs.Prelude.{◌≡◌, ◌<◌, ◌≤◌, [], length, replicate, IfOk, OnOk};
ghost use Rattle.std.specs.List.{AllByRecursion};
ghost use Rattle.dependency_graph.specs.Transposed as spec;

use base::{Items, MAX_OPERATIONS};
use std::alloc::{AllocError, Global};

/// Numbers of operations.
pub type Numbers = Items<u16>;

fn ends_with(list: &[u16], number: u16) -> bool
    ensures { result ≡ spec.ends_with number list.now }
{
    match list.last() {
        Some(last) => *last == number,
        None => false,
    }
}

/// Puts a number at the end of a list, unless it stands there already.
#[tactic(auto, unfolding(crate::specs::Transposed::put_last))]
fn put_last(list: &mut Numbers, number: u16) -> Result<(), AllocError>
    ensures { OnOk result (list.new ≡ spec.put_last number list.old) }
{
    if ends_with(list.items(), number) {
        return Ok(());
    }
    list.push(number)?;
    Ok(())
}

/// Puts a number at the end of the lists with these places, once in each.
fn enter(lists: &mut Vec<Numbers>, number: u16, places: &[u16]) -> Result<(), AllocError>
    requires { AllByRecursion (λ place. place < length lists.old.items) places.now }
    ensures { OnOk result (lists.new.items ≡ spec.entered number lists.old.items places.entry.now) }
{
    for place in places {
        put_last(&mut lists[*place as usize], number)?;
    }
    Ok(())
}

/// As many empty lists.
fn empty_lists(alloc: Global, count: usize) -> Result<Vec<Numbers>, AllocError>
    ensures { IfOk result (λ lists. lists.items ≡ replicate count []) }
{
    let mut lists = Vec::new(alloc);
    for _ in 0..count {
        lists.push(Numbers::new(alloc))?;
    }
    Ok(lists)
}

/// Puts the number of each list into the lists that it names.
fn enter_all(lists: &mut Vec<Numbers>, sources: &[Numbers]) -> Result<(), AllocError>
    requires places { AllByRecursion (AllByRecursion (λ place. place < length lists.old.items)) sources.now }
    requires few { length sources.now ≤ MAX_OPERATIONS }
    ensures { OnOk result (lists.new.items ≡ spec.entered_all 0 lists.old.items sources.entry.now) }
{
    let mut number = 0;
    for source in sources {
        enter(lists, number, source.items())?;
        number += 1;
    }
    Ok(())
}

/// The lists transposed: in the one with the number m are the numbers of the lists that hold m.
#[tactic(auto, using(crate::proofs::TransposeLemmas::is_transposed))]
pub fn transposed(alloc: Global, lists: &[Numbers]) -> Result<Vec<Numbers>, AllocError>
    requires numbers { AllByRecursion (AllByRecursion (λ number. number < length lists.now)) lists.now }
    requires few { length lists.now ≤ MAX_OPERATIONS }
    ensures { IfOk result (λ holders. holders.items ≡ spec.transposed lists.entry.now) }
{
    let mut holders = empty_lists(alloc, lists.len())?;
    enter_all(&mut holders, lists)?;
    Ok(holders)
}
