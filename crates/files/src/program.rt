// The program: the code sheet, then the frame.
ghost use Rattle.std.specs.Prelude.{◌≡◌, ◌≤◌, length};
ghost use Rattle.refusal.specs.Kinds.{returned};
ghost use Rattle.files.specs.Printed.{Printed};

use crate::frame::run_frame;
use crate::print::print_refusal;
use crate::read::{open_some, read_some};
use polar_code::{Code, kernel_count, place_count};
use refusal::Refusal;
use std::rt::Files;

// The bytes of a sheet that are read: one more than those of the longest sheet that is accepted. The first so many of a
// longer one get the same verdict as all of it.
const SHEET_BYTES: usize = 6406;

// The number of an answer of the sheet reader: that of the refusal, 0 for a sheet that was accepted.
fn refused_by(answer: Result<usize, Refusal>) -> u8
    ensures { result ≡ (returned answer).number }
{
    match answer {
        Ok(_) => 0,
        Err(refusal) => u8::from(refusal),
    }
}

// Reads a file, as far as buf goes, and returns how many bytes were read: none where it can't be opened.
fn read_code<R: Files>(rt: &R, name: &[u8], buf: &mut [u8]) -> usize
    ensures { result ≤ length buf.new }
{
    let mut file = open_some(rt, name);
    read_some(&mut file, buf)
}

// The program: reads a code sheet and a frame file for that code, by their names, decodes the frame at Qc = 5 and
// Qm = 13 and prints the listing, or the number of the first refusal and nothing else. Returns 0 for a listing, or the
// number that was printed.
pub fn run<R: Files + Print>(rt: &R, code_name: &[u8], frame_name: &[u8]) -> u8
    ensures { Printed result }
{
    let mut bytes = [0u8; SHEET_BYTES];
    let mut map = [0u8; 256];
    let mut coefs = [0u8; 1024];
    let got = read_code(rt, code_name, &mut bytes);
    let answer = sheet::read_sheet(&bytes[..got], &mut map, &mut coefs);
    let Ok(n) = answer else {
        return print_refusal(rt, refused_by(answer));
    };
    let code = Code {
        n,
        map: &map[..place_count(n)],
        coefs: &coefs[..kernel_count(n)],
    };
    run_frame(rt, frame_name, &code)
}
