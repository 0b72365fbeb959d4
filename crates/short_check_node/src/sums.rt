// The least sums over a set of values.
ghost use Rattle.std.specs.Prelude.{◌≡◌, ◌+◌, ◌*◌, ◌<◌, ◌≤◌};
ghost use Rattle.reorder.specs.Order.{Small, Mapped};
ghost use Rattle.scms.specs.Nodes.{check_tried};
ghost use Rattle.short_check_node.specs.Masks.{with_sum, SetSums};

use crate::counts::threshold;
use crate::masks::tried_set;
use check_node::{copies, signed_min};

// The sums of a block of eight neighbours at value c, whose penalty is x.
#[tactic(auto, using(crate::proofs::SumLaws::block_lt))]
fn block_sums(held: &mut [u16; 64], copies: &[u16; 512], x: u16, c: usize, block: usize)
    requires { (c < 64) × (block < 8) }
    ensures { Mapped (with_sum copies.now x c) (8 * block) (8 * block + 8) held.old held.new }
{
    let from = 64 * (c % 8) + 8 * (block ^ (c / 8));
    let at = 8 * block;
    for i in 0..8 {
        held[at + i] = signed_min(held[at + i], copies[from + i].wrapping_add(x));
    }
}

// The sums of all 64 values at value c, whose penalty is x.
fn value_sums(held: &mut [u16; 64], copies: &[u16; 512], x: u16, c: usize)
    requires { c < 64 }
    ensures { Mapped (with_sum copies.now x c) 0 64 held.old held.new }
{
    for block in 0..8 {
        block_sums(held, copies, x, c, block);
    }
}

// For each value b the least of its sums at the values of a set, from eight copies of theta's penalties and phi's
// penalties in the order of c.
fn set_sums(copies: &[u16; 512], ordered: &[u16; 64], mask: u64) -> [u16; 64]
    ensures { SetSums copies.now ordered.now mask result }
{
    let mut r = [32767u16; 64];
    let mut rest = mask;
    while rest != 0 {
        let c = (rest.trailing_zeros() as usize) % 64;
        value_sums(&mut r, copies, ordered[c], c);
        rest &= rest - 1;
    }
    r
}

// For each value b the least of its sums at the m values whose penalties are smallest, ties to the smaller value.
pub(crate) fn tried_sums(theta: &[u16; 64], ordered: &[u16; 64], m: u16) -> [u16; 64]
    requires { Small theta.now × Small ordered.now × (1 ≤ m) × (m ≤ 64) }
    ensures { result ≡ check_tried m theta.now ordered.now }
{
    let t = threshold(ordered, m);
    let set = tried_set(ordered, t, m);
    let copied = copies(theta);
    set_sums(&copied, ordered, set)
}
