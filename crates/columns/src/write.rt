// Writing a number in columns.
ghost use Rattle.std.specs.Prelude.{◌≡◌, length};
ghost use Rattle.columns.specs.Columns.{digit, column, field};

// The last digit of v, as a byte.
#[tactic(auto, unfolding(crate::specs::Columns::digit))]
fn digit(v: u32) -> u8
    ensures { result ≡ digit v }
{
    b'0' + (v % 10) as u8
}

// A column before the last: the last digit of what is left of the number, or a blank where nothing is left.
#[tactic(auto, unfolding(crate::specs::Columns::column))]
fn column(left: u32) -> u8
    ensures { result ≡ column left }
{
    if left == 0 { b' ' } else { digit(left) }
}

// Writes a number over the whole of a slice of any length, right-justified, with blanks before it. Of a number of more
// digits than there are columns the last ones are written.
#[tactic(auto, using(crate::proofs::WriteLaws::ends))]
pub fn write_number(v: u32, out: &mut [u8])
    ensures { out.new ≡ field (length out.old) v }
{
    let Some(last) = out.len().checked_sub(1) else {
        return;
    };
    out[last] = digit(v);
    let mut left = v / 10;
    for k in (0..last).rev() {
        out[k] = column(left);
        left /= 10;
    }
}
