// A vector in the order of u + c (the field's sum), so that the loop over the sums of a variable node reads neighbours.
ghost use Rattle.std.specs.Prelude.{◌≡◌, ◌*◌, ◌%◌, ◌<◌};
ghost use Rattle.reorder.specs.Order.{swapped};

use reorder::{replace_part, swapped};

// A vector with its entries i and i + run (the field's sum) exchanged where a bit is 1, and as it is where it is 0.
// It is laid out where it is called: the run is then a constant, and the exchange a few instructions.
#[inline(always)]
#[tactic(auto, using(crate::proofs::TranslateLaws::swapped_one, crate::proofs::TranslateLaws::swapped_zero))]
fn swapped_where(bit: usize, v: &[u16; 64], run: usize) -> [u16; 64]
    requires { (bit < 2) × (run < 8) }
    ensures { result ≡ swapped v.now (bit * run) }
{
    if bit == 1 { swapped(v, run) } else { *v }
}

// A vector with its entries i and i + u mod 8 (the field's sum) exchanged: for each of u's three low bits that is
// set, neighbours at that distance.
#[tactic(auto, using(crate::proofs::TranslateLaws::swapped_bits))]
fn translated_low(v: &[u16; 64], u: usize) -> [u16; 64]
    ensures { result ≡ swapped v.now (u % 8) }
{
    let by1 = swapped_where(u % 2, v, 1);
    let by2 = swapped_where(u / 2 % 2, &by1, 2);
    swapped_where(u / 4 % 2, &by2, 4)
}

// A vector translated by u: its entries c and c + u (the field's sum) exchanged, by u's three low bits within eight
// neighbours, and then eight by eight.
pub(crate) fn translated(v: &[u16; 64], u: u8) -> [u16; 64]
    requires { u < 64 }
    ensures { result ≡ swapped v.now u }
{
    let symbol = usize::from(u);
    let low = translated_low(v, symbol);
    let mut r = [0u16; 64];
    for block in 0..8 {
        let from = 8 * (block ^ (symbol / 8));
        replace_part(&low, from, 0, &mut r, 8 * block, 8);
    }
    r
}
