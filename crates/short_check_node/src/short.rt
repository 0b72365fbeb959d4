// The shorter check node of a kernel.
ghost use Rattle.std.specs.Prelude.{◌≡◌, ◌<◌};
ghost use Rattle.reorder.specs.Order.{low_bits};
ghost use Rattle.scms.specs.Nodes.{check_tried};
ghost use Rattle.short_check_node.specs.Masks.{at_least_one};

use crate::sums::tried_sums;
use check_node::check_node;
use reorder::low_bits;

// The number of values that are tried, where it is below 64: 1 where 0 are asked for.
#[tactic(auto, using(crate::proofs::SetLaws::asked_least))]
fn at_least_one(candidates: usize) -> u16
    requires { candidates < 64 }
    ensures { result ≡ at_least_one candidates }
{
    candidates.max(1) as u16
}

// A check node that tries some values only: for each value b the least, over the `candidates` values c whose penalties
// of phi are smallest, ties to the smaller c, of theta's penalty at b plus c (the field's sum), plus phi's at c in the
// order of c. At least one value is tried, and with 64 or more all are. Of each penalty the thirteen low bits count.
pub fn short_check_node(theta: &[u16; 64], ordered: &[u16; 64], candidates: usize) -> [u16; 64]
    ensures { result ≡ check_tried (at_least_one candidates) (low_bits theta.now)
        (low_bits ordered.now) }
{
    if 63 < candidates {
        return check_node(theta, ordered);
    }
    let m = at_least_one(candidates);
    let low_theta = low_bits(theta);
    let low_ordered = low_bits(ordered);
    tried_sums(&low_theta, &low_ordered, m)
}
