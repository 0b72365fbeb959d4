// A line of numbers in four columns each.
ghost use Rattle.std.specs.Prelude.{◌≡◌, ◌+◌, ◌*◌, ◌≤◌, length};
ghost use Rattle.columns.specs.Reading.{part, is_line};

use crate::number::is_number;

// Part i of bytes that are cut in parts of a width, where they have it.
#[tactic(auto, using(columns::proofs::LineLaws::lent_part))]
pub(crate) fn part(bytes: &[u8], width: usize, i: usize) -> &[u8]
    requires { width * (i + 1) ≤ length bytes.now }
    ensures part { result.now ≡ part width i bytes.now }
    ensures long { length result.now ≡ width }
{
    let at = width * i;
    &bytes[at..at + width]
}

// Whether the bytes are a line of this many numbers, for any bytes: each in four columns, and a line feed after them,
// and nothing else.
pub(crate) fn is_line(bytes: &[u8], fields: usize) -> bool
    ensures { result ≡ is_line 4 fields bytes.now }
{
    if bytes.len() % 4 != 1 || bytes.len() / 4 != fields {
        return false;
    }
    for i in 0..fields {
        if !is_number(part(bytes, 4, i)) {
            return false;
        }
    }
    bytes[4 * fields] == b'\n'
}
