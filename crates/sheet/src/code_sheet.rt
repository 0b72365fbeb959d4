// The code sheet.
ghost use Rattle.std.specs.Prelude.{◌≡◌, length};
ghost use Rattle.sheet.specs.CodeSheet.{numbers_on, SheetRead};
ghost use Rattle.sheet.specs.Parts.{NumbersGiven};

use crate::check::{check_contents, check_form, number_on};
use polar_code::{kernel_count, place_count};
use refusal::Refusal;

// Writes the numbers on the lines from line `first` on, one for each byte of `out`.
fn write_numbers(bytes: &[u8], first: usize, out: &mut [u8])
    requires { NumbersGiven first bytes.now out.old }
    ensures { out.new ≡ numbers_on first (length out.old) bytes.now }
{
    for i in 0..out.len() {
        out[i] = number_on(bytes, first + i) as u8;
    }
}

// Reads a code sheet, for any bytes and any buffers. Answers n, with the N bytes of the map and the n × N/2
// coefficients at the start of the two buffers and what comes after these as it was. Refuses, and leaves both buffers
// as they came, by Form (12) for fewer than 5 bytes or a bad first line; Layers (1) for n outside 1 to 8; Form for a
// wrong total length or a bad line; Length (2) for a buffer that is too short; then MapByte (4), NoMessagePlace (5) and
// Coefficient (6).
pub fn read_sheet(bytes: &[u8], map: &mut [u8], coefs: &mut [u8]) -> Result<usize, Refusal>
    ensures { SheetRead bytes.now map.old coefs.old map.new coefs.new result }
{
    let n = check_form(bytes)?;
    check_contents(n, bytes, map, coefs)?;
    let size = place_count(n);
    let count = kernel_count(n);
    write_numbers(bytes, 1, &mut map[..size]);
    write_numbers(bytes, 1 + size, &mut coefs[..count]);
    Ok(n)
}
