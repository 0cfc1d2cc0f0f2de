ghost use Rattle.std.specs.Prelude.{◌≡◌, ◌≤◌, ◌<◌, ◌+◌, ◌++◌, length, map, slice_index_or, [], IfOk, OnOk};
ghost use Rattle.std.specs.List.{AllByRecursion};
ghost use Rattle.dependency_graph.specs.Needs.{graph_of};

use crate::operands::{definers_of, reads_of};
use crate::transpose::{Numbers, transposed};
use std::alloc::{AllocError, Global};
use std::marker::Model;
use word_program::Program;

/// Which operation of a program needs which. Contracts see `Links`: of each operation, those that it needs and
/// those that need it.
#[derive(Drop)]
pub struct Graph {
    needs: Vec<Numbers>,
    users: Vec<Numbers>,
}

impl Model for Graph {
    ghost use Rattle.dependency_graph.specs.Needs.{Links, IsGraph};

    ghost Value = { Links };

    ghost view = { λ g. record { needs = g.needs.items; users = g.users.items } };

    ghost invariant = { λ g. IsGraph (record { needs = g.needs.items; users = g.users.items }) };
}

fn list_at(lists: &[Numbers], op: u16) -> &[u16]
    requires { op < length lists.now }
    ensures { result.now ≡ slice_index_or lists.now op [] }
{
    lists[op as usize].items()
}

impl Graph {
    /// The graph of a program. The one error is want of memory.
    #[tactic(auto, using(crate::proofs::NeedLemmas::graph_is))]
    pub fn of(alloc: Global, program: &Program) -> Result<Graph, AllocError>
        ensures { IfOk result (λ graph. graph ≡ graph_of program.entry.now) }
    {
        let ops = program.ops();
        let definers = definers_of(alloc, ops)?;
        let reads = reads_of(alloc, definers.as_slice(), ops)?;
        let users = transposed(alloc, reads.as_slice())?;
        let needs = transposed(alloc, users.as_slice())?;
        Ok(Graph { needs, users })
    }

    /// The operations that the one with this number needs: those that define its operands, ascending, each once.
    pub fn needs(&self, op: u16) -> &[u16]
        requires { op < length self.now.needs }
        ensures needs { result.now ≡ slice_index_or self.now.needs op [] }
        ensures earlier { AllByRecursion (λ other. other < op) result.now }
    {
        list_at(self.needs.as_slice(), op)
    }

    /// The operations that need the one with this number: those that have a result of it as an operand, ascending,
    /// each once.
    pub fn users(&self, op: u16) -> &[u16]
        requires { op < length self.now.users }
        ensures users { result.now ≡ slice_index_or self.now.users op [] }
        ensures later { AllByRecursion (λ user. op < user) result.now }
        ensures within { AllByRecursion (λ user. user < length self.now.users) result.now }
    {
        list_at(self.users.as_slice(), op)
    }
}
