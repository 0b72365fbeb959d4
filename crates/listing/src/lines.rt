// The lines: numbers in five columns each, and a line feed.
ghost use Rattle.std.specs.Prelude.{◌≡◌, ◌+◌, ◌*◌, length};
ghost use Rattle.columns.specs.Columns.{line};
ghost use Rattle.listing.specs.Listing.{place_line, number_line};

use crate::held::{held_for, least_other};
use columns::write_number;

// The columns of each number.
const COLUMNS: usize = 5;

// Writes a line of these numbers over the whole of a slice. Of a number of more than five digits the last five are
// written.
#[tactic(auto, using(crate::proofs::LineLaws::writes), unfolding(columns::specs::Columns::fields))]
fn write_line(numbers: &[u32], out: &mut [u8])
    requires { length out.old ≡ 5 * length numbers.now + 1 }
    ensures { out.new ≡ line 5 numbers.now }
{
    for (i, number) in numbers.iter().enumerate() {
        let at = COLUMNS * i;
        write_number(*number, &mut out[at..at + COLUMNS]);
    }
    out[COLUMNS * numbers.len()] = b'\n';
}

// The line of a place, from its number, its symbol and the 64 penalties held for its values: four fields of five
// columns with the place, the symbol, the penalty held for that symbol and the least penalty held for any other value,
// and a line feed. Any input is accepted: an entry that the slice does not have counts as 0, for a number above 63 the
// other values are 0 to 62, and of a place of more than five digits the last five are written.
#[tactic(auto, unfolding(crate::specs::Listing::place_line))]
pub fn place_line(place: u32, symbol: u8, llrs: &[u16]) -> [u8; 21]
    ensures { result ≡ place_line place symbol llrs.now }
{
    let value = usize::from(symbol);
    let held = u32::from(held_for(value, llrs));
    let other = u32::from(least_other(value, llrs));
    let mut line = [0; 21];
    write_line(&[place, u32::from(symbol), held, other], &mut line);
    line
}

// The line of one number: five columns and a line feed. The clip count and a refusal are printed so. Of a number of
// more than five digits the last five are written.
#[tactic(auto, unfolding(crate::specs::Listing::number_line))]
pub fn number_line(v: u32) -> [u8; 6]
    ensures { result ≡ number_line v }
{
    let mut line = [0; 6];
    write_line(&[v], &mut line);
    line
}
