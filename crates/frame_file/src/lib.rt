// A frame file, line by line. The state is a number: that by which what was read so far is refused, 0 where it is not.
// Any number is taken for it, so it is no refusal but a byte.
#![tactic(auto)]

ghost use Rattle.std.specs.Prelude.{◌≡◌, length};
ghost use Rattle.refusal.specs.Kinds.{number};
ghost use Rattle.sheet.specs.FrameLine.{line_output};
ghost use Rattle.frame_file.specs.FrameFile.{line_verdict, first_tried, end_verdict, LineFed};

use decoder_refusal::check_frame;
use refusal::{Refusal, status};
use sheet::read_frame_line;

// The largest penalty of a frame file: that of Qc = 5.
const LARGEST: u16 = 31;

// Of two verdicts on parts of a frame file the one that is tried first: 2, 12, 8, 9. Any other number counts as 0.
#[tactic(auto, unfolding(refusal::specs::Table::refusal_of, crate::specs::FrameFile::first_tried))]
fn first_tried(a: u8, b: u8) -> u8
    ensures { result ≡ first_tried a b }
{
    match (a, b) {
        (2, _) | (_, 2) => 2,
        (12, _) | (_, 12) => 12,
        (8, _) | (_, 8) => 8,
        (9, _) | (_, 9) => 9,
        _ => 0,
    }
}

// Reads a line into the output, and refuses by Length (2) an output of other than 64 numbers, by Form (12) bytes that
// are not a line, and by Penalty (8) and NoZero (9) penalties that are none at Qc = 5. A line of the right form leaves
// its numbers in the output, any other leaves it as it came.
fn read_line(line: &[u8], llrs: &mut [u16]) -> Result<(), Refusal>
    ensures refusal { number result ≡ line_verdict (length llrs.old) line.now }
    ensures output { llrs.new ≡ line_output line.now llrs.old }
{
    read_frame_line(line, llrs)?;
    check_frame(llrs, LARGEST)
}

// The step for one line, from the verdict on the lines before it (0 before the first) and the bytes that were read for
// it: the verdict with this line, 2 for an output of other than 64 numbers, 12 for bytes that are not a line, then, at
// Qc = 5, 8 for a penalty above 31 and 9 for no zero. A line of the right form leaves its numbers in the output, any
// other leaves it as it came. Any input is accepted; a verdict that is none of these counts as 0.
pub fn feed_line(verdict: u8, line: &[u8], llrs: &mut [u16]) -> u8
    ensures { LineFed verdict line.now llrs.old llrs.new result }
{
    first_tried(verdict, status(read_line(line, llrs)))
}

// The step at the end, from the verdict on all lines and whether a byte is left in the file: the verdict on the whole
// file. A verdict that is none of those of `feed_line` counts as 0.
#[tactic(auto, unfolding(crate::specs::FrameFile::end_verdict))]
pub fn end_frame(verdict: u8, left: bool) -> u8
    ensures { result ≡ end_verdict verdict left }
{
    if left {
        first_tried(verdict, u8::from(Refusal::Form))
    } else {
        first_tried(verdict, 0)
    }
}
