//! The interval of a sum of terms.

ghost use Rattle.std.specs.Prelude.{◌≡◌, ◌≤◌, length};
ghost use Rattle.terms.specs.Rules.{max_terms};
ghost use Rattle.terms.specs.Sums as spec;
ghost use Rattle.terms.specs.Tables.{AreTermsBelow};

use crate::lists::Term;
use crate::nodes::Nodes;
use intervals::{Interval, full, product, window};

/// From here on a term is too far above or below 0.
const FAR: u128 = 1 << 100;

/// A multiple of 2^64 that keeps sums above 0.
const ABOVE: u128 = 1 << 110;

/// A multiplier where it is not below 0 as a signed number.
fn up(times: u64) -> u64
    ensures { result ≡ spec.up times }
{
    if times < 1 << 63 { times } else { 0 }
}

/// How far a multiplier is below 0 as a signed number.
fn down(times: u64) -> u64
    ensures { result ≡ spec.down times }
{
    if times < 1 << 63 {
        0
    } else {
        u64::MAX - times + 1
    }
}

/// The interval of a constant and at most 16 terms.
#[tactic(auto, unfolding(crate::specs::Sums::sum_interval))]
pub fn sum_interval<N: Nodes>(nodes: &N, k: u64, terms: &[Term]) -> Interval
    requires inside { AreTermsBelow (length (N.nodes nodes.now)) terms.now }
    requires few { length terms.now ≤ max_terms }
    ensures { result ≡ spec.sum_interval (N.nodes nodes.now) k terms.now }
{
    let mut least = 0u128;
    let mut greatest = 0u128;
    let mut least_down = 0u128;
    let mut greatest_down = 0u128;
    for t in terms {
        let node = nodes.node(t.node);
        let times = up(t.times);
        let back = down(t.times);
        if product(times + back, node.high) >= FAR {
            return full();
        }
        if node.high < node.low {
            return full();
        }
        least += product(times, node.low);
        greatest += product(times, node.high);
        least_down += product(back, node.low);
        greatest_down += product(back, node.high);
    }
    let base = u128::from(k) + ABOVE;
    window(base + least - greatest_down, base + greatest - least_down)
}
