// The variable node of a kernel, by plain loops: the sums; the least of them, and each less the least; and the clip.
ghost use Rattle.std.specs.Prelude.{◌≡◌, ◌<◌, ◌≤◌};
ghost use Rattle.scms.specs.Nodes.{sums_from, clipped, exceeding};
ghost use Rattle.reorder.specs.Order.{Small};
ghost use Rattle.variable_node.specs.VariableNode.{IsVariableNode};

use crate::translate::translated;
use reorder::low_bits;
use std::array;
use vector::Lowered;

// The sums of a variable node, theta's symbol being u and phi's vector in the order of c: for each c, theta's penalty
// at u + c (the field's sum) plus phi's at h times c. Theta's vector is put in the order of u + c first, so that the
// loop reads neighbours.
fn sums(theta: &[u16; 64], ordered: &[u16; 64], u: u8) -> [u16; 64]
    requires { (u < 64) × Small theta.now × Small ordered.now }
    ensures { result ≡ sums_from u theta.now ordered.now }
{
    let t = translated(theta, u);
    array::from_fn(|c| t[c] + ordered[c])
}

// 64 penalties after the clip, and how many exceeded the cap before it.
#[derive(Drop)]
struct Clipped {
    llrs: [u16; 64],
    count: u32,
}

// Clips each of 64 penalties to the cap, and counts those that exceed it.
fn clip_llrs(cap: u16, v: &[u16; 64]) -> Clipped
    ensures { (result.llrs ≡ clipped cap v.now)
        × (result.count ≡ exceeding cap v.now) × (result.count ≤ 64) }
{
    let mut llrs = *v;
    let mut count: u16 = 0;
    for x in llrs.iter_mut() {
        count += u16::from(cap < *x);
        *x = (*x).min(cap);
    }
    let count = u32::from(count);
    Clipped { llrs, count }
}

// What a variable node gives: its 64 penalties, how many of them were clipped, and what was taken off before the clip.
#[derive(Drop)]
pub struct VariableNode {
    pub llrs: [u16; 64],
    pub count: u32,
    pub taken: u16,
}

// A variable node, from theta's vector, phi's in the order of c and theta's symbol u: its sums, less the least of
// them, and only then clipped to the cap. The count of clipped entries is at most 64, so that a caller can add those
// of all nodes. Of each penalty the thirteen low bits count, of u the six low ones.
pub fn variable_node(theta: &[u16; 64], ordered: &[u16; 64], u: u8, cap: u16) -> VariableNode
    ensures { IsVariableNode cap u theta.now ordered.now result }
{
    let low_theta = low_bits(theta);
    let low_ordered = low_bits(ordered);
    let all = sums(&low_theta, &low_ordered, u % 64);
    let Lowered { rest, taken } = vector::subtract_least(&all);
    let Clipped { llrs, count } = clip_llrs(cap, &rest);
    VariableNode { llrs, count, taken }
}
