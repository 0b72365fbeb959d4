// The steps of a check node.
ghost use Rattle.std.specs.Prelude.{◌≡◌, ◌+◌, ◌*◌, ◌<◌, slice_index};
ghost use Rattle.reorder.specs.Order.{Small, Mapped};
ghost use Rattle.scms.specs.Nodes.{check_from};
ghost use Rattle.check_node.specs.Steps.{signed_min, step, four_steps, LaneMapped, steps_at, column_to, summed};

use crate::copying::copies;
use crate::differences::differences;
use std::array;

// The smaller of two numbers of 16 bits, compared as signed numbers: the compiler takes eight such minima in one
// instruction.
pub fn signed_min(a: u16, b: u16) -> u16
    ensures { result ≡ signed_min a b }
{
    a.cast_signed().min(b.cast_signed()).cast_unsigned()
}

// One step for one value: what is held moves by the difference d to the next value, which gives w, and the smaller of
// the two is held.
#[tactic(auto, unfolding(crate::specs::Steps::step))]
fn step(held: u16, d: u16, w: u16) -> u16
    ensures { result ≡ step held d w }
{
    signed_min(held.wrapping_add(d), w)
}

// Four steps for one value.
fn four_steps(held: u16, d: &[u16; 4], w: &[u16; 4]) -> u16
    ensures { result ≡ four_steps
        (slice_index d.now 0) (slice_index d.now 1) (slice_index d.now 2) (slice_index d.now 3)
        (slice_index w.now 0) (slice_index w.now 1) (slice_index w.now 2) (slice_index w.now 3) held }
{
    d.iter()
        .zip(w)
        .fold(held, |held, (d, w)| step(held, *d, *w))
}

// Four steps for four values, one of each block of eight, from the one at `at` on. They are compared with the same
// four numbers, each block with them in another order.
fn lane_steps(held: &mut [u16; 64], at: usize, d: &[u16; 4], w: &[u16; 4])
    requires { at < 40 }
    ensures { LaneMapped d.now w.now at 4 held.old held.new }
{
    for block in 0..4 {
        let order = [w[block], w[block ^ 1], w[block ^ 2], w[block ^ 3]];
        held[at + 8 * block] = four_steps(held[at + 8 * block], d, &order);
    }
}

// Steps 4 q to 4 q + 3 for the 32 values of one half, in four blocks of eight. The four parts of a copy that they are
// compared with are the same for each block, in another order: so each part is read once, and the compiler works on
// eight neighbours at a time.
#[tactic(auto, using(crate::proofs::StepLaws::half_lt))]
fn half_steps(held: &mut [u16; 64], copies: &[u16; 512], d: &[u16; 64], q: usize, half: usize)
    requires { (q < 16) × (half < 2) }
    ensures { Mapped (steps_at copies.now d.now q) (32 * half) (32 * half + 32) held.old held.new }
{
    let first = 32 * (q % 2) + q / 2;
    let from = 32 * (q ^ half);
    let d = [d[first], d[first + 8], d[first + 16], d[first + 24]];
    for i in 0..8 {
        let at = from + i;
        let w = [copies[at], copies[at + 8], copies[at + 16], copies[at + 24]];
        lane_steps(held, 32 * half + i, &d, &w);
    }
}

// Steps 4 q to 4 q + 3 for all 64 values.
fn all_steps(held: &mut [u16; 64], copies: &[u16; 512], d: &[u16; 64], q: usize)
    requires { q < 16 }
    ensures { Mapped (steps_at copies.now d.now q) 0 64 held.old held.new }
{
    for half in 0..2 {
        half_steps(held, copies, d, q, half);
    }
}

// The eight steps of a column for all 64 values. They are one turn of its caller's loop: then all but the column is
// constant.
fn column_steps(held: &mut [u16; 64], copies: &[u16; 512], d: &[u16; 64], column: usize)
    requires { column < 8 }
    ensures { Mapped (column_to copies.now d.now column 2) 0 64 held.old held.new }
{
    for j in 0..2 {
        all_steps(held, copies, d, 2 * column + j);
    }
}

// Each entry plus y.
fn summed(v: &[u16; 64], y: u16) -> [u16; 64]
    ensures { result ≡ summed v.now y }
{
    array::from_fn(|b| v[b].wrapping_add(y))
}

// For each value b the least, over all 64 values c, of theta's penalty at b plus c (the field's sum), plus phi's at c
// in the order of c. Eight values are worked on at a time, four steps for all of them before the next four.
pub(crate) fn least_sums(theta: &[u16; 64], ordered: &[u16; 64]) -> [u16; 64]
    requires { Small theta.now × Small ordered.now }
    ensures { result ≡ check_from theta.now ordered.now }
{
    let copied = copies(theta);
    let d = differences(ordered);
    let mut held = *theta;
    for column in 0..8 {
        column_steps(&mut held, &copied, &d, column);
    }
    summed(&held, ordered[63])
}
