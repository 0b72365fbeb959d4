// Vectors of 64 numbers, one for each value of a symbol: the least entry, each entry less the least, the vectors of a
// slice, the part of one place, and the largest penalty of a precision.
#![tactic(auto)]

mod part;

ghost use Rattle.std.specs.Prelude.{◌≡◌};
ghost use Rattle.vector.specs.Vector.{least, less_least, stored};
ghost use Rattle.vector.specs.Frame.{largest};

pub use part::place_llrs;
use std::array;

// The least of the 64 entries.
#[tactic(auto, using(crate::proofs::Laws::least_fold))]
pub fn least_of(v: &[u16; 64]) -> u16
    ensures { result ≡ least v.now }
{
    let mut least = v[0];
    for x in v {
        least = least.min(*x);
    }
    least
}

// A vector less its least entry, and what was taken off.
#[derive(Drop)]
pub struct Lowered {
    pub rest: [u16; 64],
    pub taken: u16,
}

// Each of the 64 entries less the least of them, and that least.
pub fn subtract_least(v: &[u16; 64]) -> Lowered
    ensures { (result.rest ≡ less_least v.now) × (result.taken ≡ least v.now) }
{
    let taken = least_of(v);
    let rest = array::from_fn(|b| v[b] - taken);
    Lowered { rest, taken }
}

// Writes v as vector i of a slice. Where the slice has no such vector, nothing is written.
#[tactic(auto, using(crate::proofs::SliceLaws::stored_none))]
pub fn store(v: &[u16; 64], i: usize, s: &mut [u16])
    ensures { s.new ≡ stored s.old i v.now }
{
    if s.len() / 64 <= i {
        return;
    }
    let at = 64 * i;
    for (c, x) in v.iter().enumerate() {
        s[at + c] = *x;
    }
}

// The largest penalty of a precision of q bits, 2^q - 1; of 13 bits where q is more.
#[tactic(auto, using(crate::proofs::FrameLaws::power_most), unfolding(crate::specs::Frame::largest))]
pub fn largest(q: u32) -> u16
    ensures { result ≡ largest q }
{
    (1 << q.min(13)) - 1
}
