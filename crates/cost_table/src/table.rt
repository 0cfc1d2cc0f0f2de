ghost use Rattle.std.specs.Prelude.{◌≡◌, ◌≤◌, length};
ghost use Rattle.base.specs.declared.limits.TheConstants.{MAX_LINES};
ghost use Rattle.cost_table.specs.Costs as spec;

use x86_instr::{Access, Instr, Line, Listing};

/// What a listing costs: of each line the base of its instruction, 4 more where it reads memory, and 2 more where it
/// writes memory. The base is 4 for `mulx` and `mul`, 3 for `imul` and `shrd`, and 1 for every other. It is no time,
/// but an estimate by which listings are compared.
pub fn cost(listing: &Listing) -> u64
    ensures { result ≡ spec.cost_of listing.now.lines }
{
    cost_of(listing.lines())
}

fn cost_of(lines: &[Line]) -> u64
    requires { length lines.now ≤ MAX_LINES }
    ensures { result ≡ spec.cost_of lines.now }
{
    let mut cost = 0;
    for line in lines {
        cost += instr_cost(&line.instr);
    }
    cost
}

fn instr_cost(instr: &Instr) -> u64
    ensures cost { result ≡ spec.instr_cost instr.now }
    ensures limit { result ≤ 16 }
{
    base_cost(instr) + access_cost(instr.access())
}

fn base_cost(instr: &Instr) -> u64
    ensures cost { result ≡ spec.base_cost instr.now }
    ensures limit { result ≤ 4 }
{
    match instr {
        Instr::Mulx { .. } | Instr::Mul { .. } => 4,
        Instr::Imul { .. } | Instr::Shrd { .. } => 3,
        _ => 1,
    }
}

fn access_cost(access: Access) -> u64
    ensures cost { result ≡ spec.access_cost access }
    ensures limit { result ≤ 4 }
{
    match access {
        Access::None => 0,
        Access::Read(_) => 4,
        Access::Write(_) => 2,
    }
}
