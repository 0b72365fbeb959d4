// The transform of a word in place, by halves.
ghost use Rattle.std.specs.Prelude.{◌≡◌};
ghost use Rattle.gf64.specs.ProductTable.{product_table, entry_of};
ghost use Rattle.polar.specs.Halves.{block_transform};
ghost use Rattle.polar.specs.Parts.{Block};
ghost use Rattle.polar.specs.Join.{Halves, JoinedWith, HalvesJoined};

use gf64::{Products, product_from};

// The kernels that join the two halves of a word: kernel t has the places t and half + t, and coefficient start + t.
// Products are read from the table that is lent.
fn join_kernels(half: usize, start: usize, coefs: &[u8], table: &Products, word: &mut [u8])
    requires { Halves half start coefs.now word.old }
    ensures { JoinedWith (entry_of table.now) half start coefs.now word.old
        word.new }
{
    for t in 0..half {
        let theta = t;
        let phi = half + t;
        let r = word[phi];
        word[theta] ^= r;
        word[phi] = product_from(table, coefs[start + t], r);
    }
}

// The transform of a block of 2^layers places, half of them in each half: first each half by itself, one layer less,
// then the kernels that join them. Those have their coefficients from start on, the next layer's come stride further
// on. A block of one place, with no layer, stays as it is; so no call is made for the halves of a block of two places.
// The table that is lent is that of products.
pub(crate) fn transform_block(
    layers: usize,
    half: usize,
    start: usize,
    stride: usize,
    coefs: &[u8],
    table: &Products,
    word: &mut [u8],
)
    requires { Block layers half start stride coefs.now word.old × (table.now ≡ product_table) }
    ensures { word.new ≡ block_transform layers start stride coefs.now word.old }
{
    if layers == 0 {
        return;
    }
    if layers == 1 {
        join_kernels(half, start, coefs, table, word);
        return;
    }
    let quarter = half / 2;
    let first = start + stride;
    let second = first + quarter;
    transform_block(
        layers - 1,
        quarter,
        first,
        stride,
        coefs,
        table,
        &mut word[..half],
    );
    transform_block(
        layers - 1,
        quarter,
        second,
        stride,
        coefs,
        table,
        &mut word[half..],
    );
    join_kernels(half, start, coefs, table, word);
}

// Joins the two halves of a word by the kernels between them: kernel t has the places t and half + t, and coefficient
// start + t. Products are read from the table that is lent. Where the word is not two halves of at most 128 places, or
// the coefficients are not all there or more than 1,024, nothing is written.
pub fn join_halves(half: usize, start: usize, coefs: &[u8], table: &Products, word: &mut [u8])
    ensures { HalvesJoined half start coefs.now table.now word.old
        word.new }
{
    let few = half <= 128 && coefs.len() <= 1024;
    if few && word.len() == half + half && half <= coefs.len() && start <= coefs.len() - half {
        join_kernels(half, start, coefs, table, word);
    }
}
