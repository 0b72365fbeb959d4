// The nodes of one layer of a block: those of the kernels that join its two halves. Kernel t has the block's places t
// and half + t, and coefficient start + t. What the nodes give, the vectors of a half one layer on, is written after
// the block's own vectors. The frame is only read.
ghost use Rattle.std.specs.Prelude.{◌≡◌, ◌*◌, ◌≤◌, ◌++◌, length};
ghost use Rattle.gf64.specs.ProductTable.{product_table};
ghost use Rattle.decoder.specs.Parts.{KernelsGiven, CheckNodesWritten};
ghost use Rattle.decoder.specs.Parts.{LayerGiven, FirstSymbols, OrderedGiven, SumFits, VariableNodesWritten};

use crate::vectors::{BlockAt, load_vector, vector_of};
use gf64::Products;

// The check nodes of a block's kernels, each of which tries as many values as the block says. Phi's vectors are put in
// the order of c for them, by the table of products that is lent, and kept so in `room` for the variable nodes.
pub(crate) fn check_nodes(
    block: BlockAt,
    half: usize,
    coefs: &[u8],
    table: &Products,
    frame: &[u16],
    work: &mut [u16],
    room: &mut [u16],
)
    requires { KernelsGiven block half coefs.now frame.now work.old
        × (64 * half ≤ length room.old) × (table.now ≡ product_table) }
    ensures { CheckNodesWritten block half coefs.now frame.now work.old
        work.new room.new }
{
    let places = block.places;
    let at = block.at;
    let start = block.start;
    let candidates = block.candidates;
    let to = at + (half + half) - places;
    for t in 0..half {
        let theta = load_vector(places, frame, work, at + t);
        let phi = load_vector(places, frame, work, at + (half + t));
        let ordered = phi_order::ordered(&phi, table, coefs[start + t]);
        vector::store(&ordered, t, room);
        let r = short_check_node::short_check_node(&theta, &ordered, candidates);
        vector::store(&r, to + t, work);
    }
}

// What the variable nodes of a block's kernels give beside their vectors.
#[derive(Drop)]
pub(crate) struct NodeSums {
    // The count of their clipped entries.
    pub count: u32,
    // What they took off, all kernels counted.
    pub taken: u16,
}

// The variable nodes of a block's kernels, with the symbols decided in its first half and phi's vectors in the order of
// c.
pub(crate) fn variable_nodes(
    block: BlockAt,
    half: usize,
    word: &[u8],
    frame: &[u16],
    work: &mut [u16],
    room: &[u16],
) -> NodeSums
    requires { LayerGiven block half frame.now work.old × FirstSymbols half word.now
        × OrderedGiven half room.now × SumFits block.at half word.now (frame.now ++ work.old) room.now }
    ensures { VariableNodesWritten block half word.now frame.now work.old
        room.now work.new result }
{
    let places = block.places;
    let at = block.at;
    let cap = block.cap;
    let to = at + (half + half) - places;
    let mut count: u32 = 0;
    let mut taken: u16 = 0;
    for t in 0..half {
        let theta = load_vector(places, frame, work, at + t);
        let ordered = vector_of(room, t);
        let r = variable_node::variable_node(&theta, &ordered, word[t], cap);
        vector::store(&r.llrs, to + t, work);
        count += r.count;
        taken += r.taken;
    }
    NodeSums { count, taken }
}
