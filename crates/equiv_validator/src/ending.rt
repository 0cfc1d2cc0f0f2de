ghost use Rattle.std.specs.Prelude.{◌≡◌, ◌↔◌, ◌^◌, ◌<◌, length, Some, MatchOption, IsTrue};
ghost use Rattle.symbolic_state.specs.Written.{words_written};
ghost use Rattle.equiv_validator.specs.Checks as spec;

use crate::verdict::{Proof, Verdict, Why};
use symbolic_state::SymState;
use x86_instr::Reg;

/// The registers, other than the stack pointer, that a function gives back as it found them.
const SAVED: [Reg; 6] = [Reg::Rbx, Reg::Rbp, Reg::R12, Reg::R13, Reg::R14, Reg::R15];

fn is_restored(state: &SymState, reg: Reg) -> bool
    ensures { result ≡ spec.is_restored state.now reg }
{
    state.register(reg) == u32::from(reg.number())
}

/// The first saved register that is not restored.
fn lost_register(state: &SymState) -> Option<Reg>
    ensures { result ≡ spec.lost_register state.now }
{
    SAVED.iter().copied().find(|reg| !is_restored(state, *reg))
}

fn is_node(found: Option<u32>, node: u32) -> bool
    ensures { IsTrue result ↔ (found ≡ Some node) }
{
    match found {
        Some(other) => other == node,
        None => false,
    }
}

/// The first output word that has another node than the program's.
fn other_output(state: &SymState, nodes: &[u32]) -> Option<Why>
    requires same { length (words_written state.now) ≡ length nodes.now }
    requires few { length nodes.now < 2 ^ 32 }
    ensures { MatchOption result (spec.HaveNodes (words_written state.now) nodes.now)
        (spec.IsOtherOutput (words_written state.now) nodes.now) }
{
    let mut word = 0;
    for source in nodes {
        let listing = state.written(word);
        if !is_node(listing, *source) {
            return Some(Why::Output {
                word,
                source: *source,
                listing,
            });
        }
        word += 1;
    }
    None
}

/// What the state at `ret` says of the listing, where the output words of the program have these nodes.
pub fn verdict_on(state: &SymState, nodes: &[u32]) -> Verdict
    requires same { length (words_written state.now) ≡ length nodes.now }
    requires few { length nodes.now < 2 ^ 32 }
    ensures { spec.IsVerdictOn nodes.now state.now result }
{
    if let Some(why) = other_output(state, nodes) {
        return Verdict::Not(why);
    }
    if let Some(reg) = lost_register(state) {
        return Verdict::Not(Why::Saved { reg });
    }
    if !is_restored(state, Reg::Rsp) {
        return Verdict::Not(Why::Stack);
    }
    Verdict::Proved(Proof {})
}
