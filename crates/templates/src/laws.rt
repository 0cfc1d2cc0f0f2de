//! A law of the table: a function that does nothing, whose contract is the law.

ghost use Rattle.std.specs.Prelude.{◌≤◌, length};
ghost use Rattle.word_program.specs.declared.operation.Op.{Op};
ghost use Rattle.templates.specs.Table.{templates_of};

/// Each operation has a template, and the one with the number 0 can always be taken.
pub fn each_operation_has_a_template()
    ensures { (op : Op) → 1 ≤ length (templates_of op) }
{}
