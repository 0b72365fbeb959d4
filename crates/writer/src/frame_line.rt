// One line of a frame file.
ghost use Rattle.std.specs.Prelude.{◌≡◌};
ghost use Rattle.refusal.specs.Kinds.{number};
ghost use Rattle.columns.specs.Columns.{line};
ghost use Rattle.writer.specs.FrameLine.{line_write_refusal, LineWritten};
ghost use Rattle.writer.specs.Parts.{LineRoom};

use columns::write_number;
use decoder_refusal::check_frame;
use refusal::{Refusal, require};

// The penalties of a line, one for each value of a symbol.
const VALUES: usize = 64;

// The columns of each.
const COLUMNS: usize = 4;

// The bytes of a line: these, and a line feed.
const LINE: usize = 257;

// The largest penalty of a frame file: that of Qc = 5.
const LARGEST: u16 = 31;

// Writes the line of 64 penalties.
fn write_llrs(llrs: &[u16], out: &mut [u8])
    requires { LineRoom llrs.now out.old }
    ensures { out.new ≡ line 4 llrs.now }
{
    for (i, llr) in llrs.iter().enumerate() {
        let at = COLUMNS * i;
        write_number(u32::from(*llr), &mut out[at..at + COLUMNS]);
    }
    out[LINE - 1] = b'\n';
}

// Goes down the table of `write_frame_line`, in document 01's order.
#[tactic(auto, unfolding(refusal::specs::Table::refusal_of, refusal::specs::Tests::unequal, crate::specs::FrameLine::line_write_refusal))]
fn check(llrs: &[u16], out: &[u8]) -> Result<(), Refusal>
    ensures { number result ≡ line_write_refusal llrs.now out.now }
{
    require(llrs.len() == VALUES, Refusal::Length)?;
    require(out.len() == LINE, Refusal::Length)?;
    check_frame(llrs, LARGEST)
}

// Writes one place's 64 penalties as a line of a frame file, 64 numbers in four columns each and a line feed, into a
// buffer of just its 257 bytes, for any penalties and any buffer. Refuses by the lowest that fits of Length (2) for
// other than 64 penalties or other than 257 bytes, Penalty (8) for a penalty above 31 (Qc = 5) and NoZero (9) for no 0
// among them, and leaves the buffer as it came.
#[tactic(auto, using(refusal::proofs::KindLaws::left_kept, refusal::proofs::KindLaws::left_made), unfolding(crate::specs::FrameLine::line_buffer))]
pub fn write_frame_line(llrs: &[u16], line: &mut [u8]) -> Result<(), Refusal>
    ensures { LineWritten llrs.now line.old line.new (number result) }
{
    check(llrs, line)?;
    write_llrs(llrs, line);
    Ok(())
}
