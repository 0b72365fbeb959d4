// The penalties that count.
ghost use Rattle.std.specs.Prelude.{◌≡◌};
ghost use Rattle.reorder.specs.Order.{low_bits};

use std::array;

// The number of penalties that there are: 0 to 8,191.
pub const LLRS: u16 = 8192;

// Of each of 64 numbers the thirteen low bits: a penalty of at most 8,191 is left as it is.
pub fn low_bits(v: &[u16; 64]) -> [u16; 64]
    ensures { result ≡ low_bits v.now }
{
    array::from_fn(|b| v[b] % LLRS)
}
