// A part of a vector replaced: the one loop by which the nodes put entries in another order.
ghost use Rattle.reorder.specs.Order.{PartReplaced};

// Replaces `count` entries of a vector, those from `first` on, by the entries of v from `from` on, each read from its
// place there plus run (the field's sum). Of the run the six low bits count. Where one of the two vectors has no such
// part, the vector is left as it is.
#[tactic(auto, using(gf64::proofs::SumLaws::sum_symbol))]
pub fn replace_part(
    v: &[u16; 64],
    from: usize,
    run: usize,
    to: &mut [u16; 64],
    first: usize,
    count: usize,
)
    ensures { PartReplaced v.now from run to.old first count to.new }
{
    if 64 < count || 64 - count < first || 64 - count < from {
        return;
    }
    let by = run % 64;
    for i in 0..count {
        to[first + i] = v[(from + i) ^ by];
    }
}
