//! Rows of forms that are made one after another: a form, and the number that it gets. A node that stands behind the
//! number is the one that the table has there; for a new node it always does.

use crate::forms::fits;
use crate::reading::{form_in, node_in, number_in};
use std::alloc::Global;
use term_store::Interner;
use terms::{Form, is_same};

// The number that the table gives to a form which may be made over it.
fn made<T: Interner>(table: &mut T, form: Form) -> Option<u32> {
    if table.count() == u32::MAX || !fits(table, &form) {
        return None;
    }
    table.make(form).ok()
}

// Whether the table has this node under the number.
fn has<T: Interner>(alloc: Global, table: &T, number: u32, text: &str) -> bool {
    match node_in(alloc, text) {
        Some(node) => number < table.count() && is_same(table.node(number), &node),
        None => false,
    }
}

// Whether the row's form gets its number, and the table grows by a node alone that the row tells.
fn holds<T: Interner>(alloc: Global, table: &mut T, row: &str) -> Option<bool> {
    let (form, answer) = row.split_once(" -> ")?;
    let (expected, node) = answer.split_once(' ').unwrap_or((answer, ""));
    let expected = number_in(expected)?;
    let form = form_in(alloc, form)?;
    let before = table.count();
    let number = made(table, form)?;
    let known = node == "" && number < before && table.count() == before;
    let told = has(alloc, table, number, node)
        && table.count() == before.max(number.saturating_add(1));
    Some(number == expected && (known || told))
}

/// The first of the rows that does not hold, where the forms are made over the table one after another.
pub fn first_wrong<'a, T: Interner>(
    alloc: Global,
    table: &mut T,
    rows: &'a str,
) -> Option<&'a str> {
    for row in rows.lines() {
        if holds(alloc, table, row) != Some(true) {
            return Some(row);
        }
    }
    None
}
