// Sets of values as numbers of 64 bits: bit c is 1 where value c belongs to the set.
ghost use Rattle.std.specs.Prelude.{◌≡◌, ◌+◌, ◌*◌, ◌<◌, ◌≤◌, slice_index};
ghost use Rattle.vector.specs.Vector.{tabulate, AtMost};
ghost use Rattle.short_check_node.specs.Masks.{below_at, Threshold, mask_of, HasSet, AfterLowest, TriedSet};

use crate::counts::count_below;

// For each value 1 where its penalty is below t, and else 0.
fn flags_below(v: &[u16; 64], t: u16) -> [u16; 64]
    ensures { result ≡ tabulate 64 (below_at v.now t) }
{
    let mut flags = [0u16; 64];
    for (c, x) in v.iter().enumerate() {
        flags[c] = u16::from(*x < t);
    }
    flags
}

// Eight neighbouring entries, each 0 or 1, as the bits of one number.
fn byte_at(f: &[u16; 64], at: usize) -> u16
    requires { AtMost 1 f.now × (at ≤ 56) }
    ensures { (result ≡ mask_of 8 (λ i. slice_index f.now (at + i))) × (result < 256) }
{
    let mut byte: u16 = 0;
    for i in 0..8 {
        byte += f[at + i] << i;
    }
    byte
}

// The values whose penalty is below t.
fn mask_below(v: &[u16; 64], t: u16) -> u64
    ensures { result ≡ mask_of 64 (below_at v.now t) }
{
    let f = flags_below(v, t);
    let mut mask: u64 = 0;
    for block in 0..8 {
        mask += u64::from(byte_at(&f, 8 * block)) << (8 * block);
    }
    mask
}

// A set without its n smallest values.
fn after_lowest(mask: u64, n: u16) -> u64
    requires { HasSet mask n }
    ensures { AfterLowest mask n result }
{
    let mut rest = mask;
    for _ in 0..n {
        rest &= rest - 1;
    }
    rest
}

// The m values whose penalties are smallest, ties to the smaller value: those below the threshold t, and of those at
// it the smallest.
pub(crate) fn tried_set(ordered: &[u16; 64], t: u16, m: u16) -> u64
    requires { Threshold m ordered.now t }
    ensures { TriedSet m ordered.now result }
{
    let few = count_below(ordered, t);
    let below = mask_below(ordered, t);
    let upto = mask_below(ordered, t + 1);
    let left = after_lowest(upto - below, m - few);
    upto ^ left
}
