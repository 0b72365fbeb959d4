// The check node of a kernel.
ghost use Rattle.std.specs.Prelude.{◌≡◌};
ghost use Rattle.reorder.specs.Order.{low_bits};
ghost use Rattle.scms.specs.Nodes.{check_from};

use crate::steps::least_sums;
use reorder::low_bits;

// A check node, from theta's vector and phi's in the order of c: its 64 entries. Of each penalty the thirteen low
// bits count.
pub fn check_node(theta: &[u16; 64], ordered: &[u16; 64]) -> [u16; 64]
    ensures { result ≡ check_from (low_bits theta.now) (low_bits ordered.now) }
{
    let low_theta = low_bits(theta);
    let low_ordered = low_bits(ordered);
    least_sums(&low_theta, &low_ordered)
}
