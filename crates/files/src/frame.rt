// Reading a frame file, one line at a time, and printing its listing.
ghost use Rattle.std.specs.Prelude.{◌≡◌};
ghost use Rattle.polar_code.specs.Code.{IsCode};
ghost use Rattle.files.specs.Printed.{FrameNumber, Penalties};
ghost use Rattle.files.specs.Parts.{Given};

use crate::print::print_refusal;
use crate::read::{open_some, read_some};
use polar_code::Code;
use std::io::Read;
use std::rt::Files;

// The penalties of the longest frame: 64 for each of 256 places.
const LONGEST_FRAME: usize = 16384;

// The bytes of the longest listing: 21 for each of 256 places, and 6.
const LONGEST_LISTING: usize = 5382;

// Reads a line for each place of the frame, and then whether a byte is left, and feeds them to the steps of
// `frame_file`, which say what the file is refused by and leave the frame's numbers. Returns that refusal, 0 where the
// file is accepted.
fn feed_file<F: Read>(file: &mut Option<F>, frame: &mut [u16]) -> u8
    ensures frame_number { FrameNumber result }
    ensures penalties { result ≡ 0 → Penalties frame.new }
{
    let mut line = [0u8; 257];
    let mut verdict: u8 = 0;
    for place in 0..frame.len() / 64 {
        let at = 64 * place;
        let end = at + 64;
        let got = read_some(file, &mut line);
        verdict = frame_file::feed_line(verdict, &line[..got], &mut frame[at..end]);
    }
    let left = read_some(file, &mut line[..1]) > 0;
    frame_file::end_frame(verdict, left)
}

// Reads a file into the frame, which has 64 numbers for each place of the code. Returns the refusal, 0 where the file
// is accepted.
fn read_frame<R: Files>(rt: &R, name: &[u8], frame: &mut [u16]) -> u8
    ensures frame_number { FrameNumber result }
    ensures penalties { result ≡ 0 → Penalties frame.new }
{
    let mut file = open_some(rt, name);
    feed_file(&mut file, frame)
}

// Reads a file into the frame and prints the listing, or the number of the refusal. Returns that number, 0 for a
// listing. A frame that was read is not refused any more: that is proved.
fn list_file<R: Files + Print>(
    rt: &R,
    name: &[u8],
    code: &Code,
    frame: &mut [u16],
    output: &mut [u8],
) -> u8
    requires { Given code.now frame.old output.old }
    ensures { FrameNumber result }
{
    let verdict = read_frame(rt, name, frame);
    if verdict != 0 {
        return print_refusal(rt, verdict);
    }
    if let Err(refusal) = program_listing::decode_listing(code, frame, output) {
        return print_refusal(rt, u8::from(refusal));
    }
    let _ = rt.write_all(output);
    0
}

// The same with buffers of its own.
pub(crate) fn run_frame<R: Files + Print>(rt: &R, name: &[u8], code: &Code) -> u8
    requires { IsCode code.now }
    ensures { FrameNumber result }
{
    let mut frame = [0u16; LONGEST_FRAME];
    let mut output = [0u8; LONGEST_LISTING];
    let size = code.map.len();
    list_file(
        rt,
        name,
        code,
        &mut frame[..64 * size],
        &mut output[..21 * size + 6],
    )
}
