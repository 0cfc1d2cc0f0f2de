ghost use Rattle.std.specs.Prelude.{◌≡◌, ℕ, ◌+◌, ◌-◌, ◌^◌, ◌<◌, ◌≤◌, length, IfOk, OnErr};
ghost use Rattle.terms.specs.Forms.{FormFits};
ghost use Rattle.terms.specs.Tables.{RefersBelow};
ghost use Rattle.term_store.specs.Interning.{interned, made};

use std::alloc::AllocError;
use terms::{Form, Node, Nodes};

/// A table of nodes that grows at its end: a node that the table has is not put there again.
pub trait Interner: Nodes {
    ghost use Rattle.std.specs.Prelude.{List};
    ghost use Rattle.terms.specs.declared.nodes.Node.{Node};

    /// The nodes that no call changes: of a tail those of its store.
    ghost fixed: { Self → List Node };

    /// The number of a node, which refers to nodes of the table alone; it is put at the end where the table does not
    /// have it. The one error is want of memory, which leaves the table as it was.
    fn intern(&mut self, node: Node) -> Result<u32, AllocError>
        requires room { length (Self.nodes self.now) < 2 ^ 32 - 1 }
        requires below { RefersBelow (length (Self.nodes self.now)) node.kind }
        ensures ok { IfOk result (λ number. record { table = Self.nodes self.new; number = number }
            ≡ interned (Self.nodes self.old) node) }
        ensures err { OnErr result (Self.nodes self.new ≡ Self.nodes self.old) }
        ensures fixed { Self.fixed self.new ≡ Self.fixed self.old };

    /// The number of what the rules make of a form, interned. The one error is want of memory, which leaves the table
    /// as it was.
    fn make(&mut self, form: Form) -> Result<u32, AllocError>
        requires room { length (Self.nodes self.now) < 2 ^ 32 - 1 }
        requires fits { FormFits (Self.nodes self.now) form }
        ensures ok { IfOk result (λ number. record { table = Self.nodes self.new; number = number }
            ≡ made (Self.nodes self.old) form) }
        ensures err { OnErr result (Self.nodes self.new ≡ Self.nodes self.old) }
        ensures fixed { Self.fixed self.new ≡ Self.fixed self.old };
}
