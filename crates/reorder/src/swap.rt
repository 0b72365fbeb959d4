// A vector in which neighbouring entries are exchanged, so that a node reads eight neighbours at a time.
ghost use Rattle.std.specs.Prelude.{◌≡◌, ◌%◌};
ghost use Rattle.reorder.specs.Order.{swapped};

use crate::part::replace_part;

// A vector with its entries i and i + run (the field's sum) exchanged, in each block of eight. Of the run the three
// low bits count.
pub fn swapped(v: &[u16; 64], run: usize) -> [u16; 64]
    ensures { result ≡ swapped v.now (run % 8) }
{
    let by = run % 8;
    let mut r = [0u16; 64];
    for block in 0..8 {
        let at = 8 * block;
        replace_part(v, at, by, &mut r, at, 8);
    }
    r
}
