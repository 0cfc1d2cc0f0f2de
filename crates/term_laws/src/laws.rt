//! Laws of tables: functions that do nothing, whose contracts are the laws.

ghost use Rattle.std.specs.Prelude.{ℕ, List};
ghost use Rattle.terms.specs.declared.nodes.Node.{Node};
ghost use Rattle.terms.specs.declared.nodes.Form.{Form};
ghost use Rattle.terms.specs.Tables.{IsTable, Prefix};
ghost use Rattle.term_laws.specs.Numbers.{Has};

/// A longer table has the same numbers for the forms of a shorter one.
pub fn numbers_stay()
    ensures { (table longer : List Node) (form : Form) (number : ℕ) → IsTable table → Prefix table longer
        → Has table form number → Has longer form number }
{}
