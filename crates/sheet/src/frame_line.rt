// One line of a frame file.
ghost use Rattle.std.specs.Prelude.{◌≡◌};
ghost use Rattle.refusal.specs.Kinds.{number};
ghost use Rattle.columns.specs.Reading.{numbers};
ghost use Rattle.sheet.specs.FrameLine.{line_refusal, LineRead};
ghost use Rattle.sheet.specs.Parts.{LineGiven};

use crate::line::{is_line, part};
use crate::number::spelled_number;
use refusal::{Refusal, require};

// Goes down the table of `read_frame_line`.
#[tactic(auto, unfolding(refusal::specs::Table::refusal_of, refusal::specs::Tests::unequal, crate::specs::FrameLine::line_refusal))]
fn check(line: &[u8], llrs: &[u16]) -> Result<(), Refusal>
    ensures { number result ≡ line_refusal line.now llrs.now }
{
    require(llrs.len() == 64, Refusal::Length)?;
    require(is_line(line, 64), Refusal::Form)
}

// Writes the 64 numbers of a line.
fn write_llrs(line: &[u8], llrs: &mut [u16])
    requires { LineGiven line.now llrs.old }
    ensures { llrs.new ≡ numbers 4 64 line.now }
{
    for i in 0..64 {
        llrs[i] = spelled_number(part(line, 4, i)) as u16;
    }
}

// Reads one line of a frame file, 64 numbers in four columns each and a line feed, for any bytes and any output. The
// numbers are then in the output. Refuses by Length (2) an output of other than 64 numbers, else by Form (12) bytes
// that are not such a line, and leaves the output as it came.
#[tactic(auto, using(refusal::proofs::KindLaws::left_kept, refusal::proofs::KindLaws::left_made), unfolding(crate::specs::FrameLine::line_output, crate::specs::FrameLine::line_llrs))]
pub fn read_frame_line(line: &[u8], llrs: &mut [u16]) -> Result<(), Refusal>
    ensures { LineRead line.now llrs.old llrs.new (number result) }
{
    check(line, llrs)?;
    write_llrs(line, llrs);
    Ok(())
}
