// The code sheet.
ghost use Rattle.std.specs.Prelude.{◌≡◌, [], ◌∷◌, ◌++◌, length};
ghost use Rattle.refusal.specs.Kinds.{number};
ghost use Rattle.columns.specs.Columns.{line, lines};
ghost use Rattle.writer.specs.CodeSheet.{sheet_of, sheet_write_refusal, SheetWritten};
ghost use Rattle.writer.specs.Parts.{LinesRoom, BothRoom, SheetRoom};

use columns::write_number;
use polar_code::Code;
use refusal::{Refusal, require};

// The columns of a number.
const COLUMNS: usize = 4;

// The bytes of a line of a sheet: these, and a line feed.
const LINE: usize = 5;

// Writes the line of one number.
fn write_line(v: u8, out: &mut [u8])
    requires { length out.old ≡ 5 }
    ensures { out.new ≡ line 4 (v ∷ []) }
{
    write_number(u32::from(v), &mut out[..COLUMNS]);
    out[COLUMNS] = b'\n';
}

// Writes numbers, each on a line of its own.
fn write_lines(numbers: &[u8], out: &mut [u8])
    requires { LinesRoom numbers.now out.old }
    ensures { out.new ≡ lines 4 numbers.now }
{
    for (i, number) in numbers.iter().enumerate() {
        let at = LINE * i;
        write_line(*number, &mut out[at..at + LINE]);
    }
}

// Writes the numbers of two slices, those of the first before those of the second, each on a line of its own.
fn write_both(first: &[u8], second: &[u8], out: &mut [u8])
    requires { BothRoom first.now second.now out.old }
    ensures { out.new ≡ lines 4 (first.now ++ second.now) }
{
    let at = LINE * first.len();
    write_lines(first, &mut out[..at]);
    write_lines(second, &mut out[at..]);
}

// Writes the sheet of a code: n, the map, the coefficients.
fn write_code(code: &Code, out: &mut [u8])
    requires { SheetRoom code.now out.old }
    ensures { out.new ≡ sheet_of code.now }
{
    write_line(code.n as u8, &mut out[..LINE]);
    write_both(code.map, code.coefs, &mut out[LINE..]);
}

// Goes down the table of `write_sheet`, in document 01's order.
#[tactic(auto, using(refusal::proofs::KindLaws::number_nonzero), unfolding(refusal::specs::Table::refusal_of, refusal::specs::Tests::unequal, crate::specs::CodeSheet::sheet_write_refusal))]
fn check(code: &Code, out: &[u8]) -> Result<(), Refusal>
    ensures { number result ≡ sheet_write_refusal code.now out.now }
{
    code.check_sizes()?;
    require(
        out.len() == LINE * (1 + code.map.len() + code.coefs.len()),
        Refusal::Length,
    )?;
    code.check_bytes()
}

// Writes the sheet of a code into a buffer of just its length, 5 × (1 + N + n × N/2) bytes, for any code and any
// buffer: n, the N map bytes and the n × N/2 coefficients, each on a line of its own. Refuses by the lowest of Layers
// (1), Length (2), MapByte (4), NoMessagePlace (5) and Coefficient (6) that fits, and leaves the buffer as it came.
#[tactic(auto, using(refusal::proofs::KindLaws::left_kept, refusal::proofs::KindLaws::left_made), unfolding(crate::specs::CodeSheet::sheet_buffer))]
pub fn write_sheet(code: &Code, out: &mut [u8]) -> Result<(), Refusal>
    ensures { SheetWritten code.now out.old out.new (number result) }
{
    check(code, out)?;
    write_code(code, out);
    Ok(())
}
