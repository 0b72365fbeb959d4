// The decoder by halves: a block is decoded by decoding its first half from check nodes and then its second half from
// variable nodes.
ghost use Rattle.std.specs.Prelude.{◌≡◌};
ghost use Rattle.gf64.specs.ProductTable.{product_table};
ghost use Rattle.decoder.specs.Parts.{OnePlace, PlaceDecoded, BlockGiven, WorkDecoded};

use crate::layers::{check_nodes, variable_nodes};
use crate::vectors::{BlockAt, load_vector};
use decision::decide;
use gf64::Products;

// One place, whose vector is number `at`: its symbol is decided from its vector, and the vector is reported, with what
// was taken off along the place's line.
fn decode_place(
    block: BlockAt,
    map: &[u8],
    frame: &[u16],
    work: &[u16],
    word: &mut [u8],
    symbols: &mut [u8],
    report: &mut [u16],
    totals: &mut [u16],
)
    requires { OnePlace block map.now frame.now work.now word.old symbols.old report.old totals.old }
    ensures { PlaceDecoded block map.now frame.now work.now
        word.new symbols.new report.new totals.new }
{
    let v = load_vector(block.places, frame, work, block.at);
    let s = decide(map[0], v);
    word[0] = s;
    symbols[0] = s;
    vector::store(&v, 0, report);
    totals[0] = block.taken;
}

// A block: writes its symbols, their transform (the word), its report and its totals, and returns the count of clipped
// entries of its variable nodes. What these take off goes down to the places of its second half. While its first half
// is decoded the second half of its report holds phi's vectors in the order of c, from the check nodes to the variable
// nodes. The table that is lent is that of products.
pub(crate) fn decode_block(
    block: BlockAt,
    coefs: &[u8],
    table: &Products,
    map: &[u8],
    frame: &[u16],
    work: &mut [u16],
    word: &mut [u8],
    symbols: &mut [u8],
    report: &mut [u16],
    totals: &mut [u16],
) -> u32
    requires { BlockGiven block coefs.now map.now frame.now work.old word.old symbols.old report.old
        totals.old × (table.now ≡ product_table) }
    ensures { WorkDecoded block coefs.now map.now frame.now work.old
        work.new word.new symbols.new report.new totals.new result }
{
    if block.layers == 0 {
        decode_place(block, map, frame, work, word, symbols, report, totals);
        return 0;
    }
    let layers = block.layers - 1;
    let half = map.len() / 2;
    let first_start = block.start + block.places / 2;
    let next = block.at + (half + half);
    let cut = 64 * half;
    let first = BlockAt {
        layers,
        start: first_start,
        at: next,
        ..block
    };
    check_nodes(block, half, coefs, table, frame, work, &mut report[cut..]);
    let left = decode_block(
        first,
        coefs,
        table,
        &map[..half],
        frame,
        work,
        &mut word[..half],
        &mut symbols[..half],
        &mut report[..cut],
        &mut totals[..half],
    );
    let nodes = variable_nodes(block, half, word, frame, work, &report[cut..]);
    let second = BlockAt {
        start: first_start + half / 2,
        taken: block.taken + nodes.taken,
        ..first
    };
    let right = decode_block(
        second,
        coefs,
        table,
        &map[half..],
        frame,
        work,
        &mut word[half..],
        &mut symbols[half..],
        &mut report[cut..],
        &mut totals[half..],
    );
    polar::join_halves(half, block.start, coefs, table, word);
    left + nodes.count + right
}
