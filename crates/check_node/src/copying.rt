// Copies of a vector in which entries are exchanged, so that a check node reads eight neighbours at a time.
ghost use Rattle.check_node.specs.Steps.{AreCopies};

use reorder::swapped;

// Eight copies of a vector, one after the other: copy k has the entries i and i + k (the field's sum) exchanged. It is
// laid out where it is called: each k is then a constant, and an exchange a few instructions.
#[inline(always)]
pub fn copies(v: &[u16; 64]) -> [u16; 512]
    ensures { AreCopies 8 v.now result }
{
    let mut w = [0u16; 512];
    for k in 0..8 {
        vector::store(&swapped(v, k), k, &mut w);
    }
    w
}
