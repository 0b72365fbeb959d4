// The calls for programs in C and Rust, under names with the prefix zithejo_. Each accepts anything: what it can't work
// on gets the number of a refusal. A slice is two arguments in C, a pointer to its first element and the number of
// elements. What no proof can see to is the caller's: each pointer must be valid for its number of elements, that of a
// number for one, and what is lent to be written must not overlap anything else that is lent. Those on a base stand in
// base.rt; how an answer with a number is told in C, in tell.rt.
#![tactic(auto)]

mod base;
mod tell;

ghost use Rattle.polar_code.specs.Code.{code_of};
ghost use Rattle.decoder_refusal.specs.Refusals.{settings_of, lent_of};
ghost use Rattle.polar.specs.Encode.{Encoded};
ghost use Rattle.demapper.specs.Demap.{Demapped};
ghost use Rattle.writer.specs.CodeSheet.{SheetWritten};
ghost use Rattle.writer.specs.FrameLine.{LineWritten};
ghost use Rattle.c_calls.specs.Calls.{DecodeCalled};

use crate::tell::tell;
use decoder_refusal::{Lent, Settings};
use demapper::Gain;
use polar_code::Code;
use refusal::status;

// Encodes a message, as `polar::encode`. Returns 0, with the codeword in the buffer lent for it; or the lowest refusal
// of 1, 2, 4, 5, 6 and 7 that fits, and leaves the buffer as it came.
#[unsafe(no_mangle)]
pub extern "C" fn zithejo_encode(
    n: usize,
    map: &[u8],
    coefs: &[u8],
    message: &[u8],
    codeword: &mut [u8],
) -> u8
    ensures { Encoded (code_of n map.now coefs.now) message.now
        codeword.old codeword.new result }
{
    status(polar::encode(&Code { n, map, coefs }, message, codeword))
}

// Weighs samples into penalties, as `demapper::demap`; a sample of -128 is a lost one and adds nothing. Returns 0, with
// the penalties in the buffer lent for them; or the lowest refusal of 2, 3, 10 and 11 that fits, and leaves the buffer
// as it came.
#[unsafe(no_mangle)]
pub extern "C" fn zithejo_demap(
    base: u64,
    samples: &[i8],
    top: u32,
    bottom: u32,
    qc: u32,
    llrs: &mut [u16],
) -> u8
    ensures { Demapped base top bottom qc samples.now llrs.old llrs.new result }
{
    status(demapper::demap(base, samples, Gain { top, bottom }, qc, llrs))
}

// Decodes a frame, as `decoder::decode`: a check node tries as many values as `candidates` says, 1 to 64, of which 64
// are all. Returns 0, with the symbols, the report, the totals and the count of clipped entries in the places lent for
// them, and the work buffer all zeros; or the first refusal of 1, 2, 3, 13, 4, 5, 6, 8 and 9 that fits, in this order,
// and leaves every buffer and the count as they came.
#[unsafe(no_mangle)]
pub extern "C" fn zithejo_decode(
    n: usize,
    map: &[u8],
    coefs: &[u8],
    qc: u32,
    qm: u32,
    candidates: u32,
    frame: &[u16],
    work: &mut [u16],
    symbols: &mut [u8],
    report: &mut [u16],
    totals: &mut [u16],
    count: &mut u32,
) -> u8
    ensures { DecodeCalled (code_of n map.now coefs.now) (settings_of qc qm candidates)
        frame.now
        (lent_of work.old symbols.old report.old totals.old)
        (lent_of work.new symbols.new report.new totals.new)
        count.old count.new result }
{
    let code = Code { n, map, coefs };
    let settings = Settings { qc, qm, candidates };
    let lent = Lent {
        work,
        symbols,
        report,
        totals,
    };
    tell(decoder::decode(&code, settings, frame, lent), count)
}

// Writes the sheet of a code, the file code.txt of the program, as `writer::write_sheet`. Returns 0, with the sheet in
// the buffer lent for it, which has just its length, 5 × (1 + N + n × N/2) bytes; or the lowest refusal of 1, 2, 4, 5
// and 6 that fits, and leaves the buffer as it came.
#[unsafe(no_mangle)]
pub extern "C" fn zithejo_write_sheet(n: usize, map: &[u8], coefs: &[u8], out: &mut [u8]) -> u8
    ensures { SheetWritten (code_of n map.now coefs.now) out.old
        out.new result }
{
    status(writer::write_sheet(&Code { n, map, coefs }, out))
}

// Writes one place's 64 penalties as a line of a frame file, as `writer::write_frame_line`; the lines of all places,
// one after the other, are the file frame.txt of the program. Returns 0, with the line in the 257 bytes lent for it; or
// the lowest refusal of 2, 8 and 9 that fits, and leaves them as they came.
#[unsafe(no_mangle)]
pub extern "C" fn zithejo_write_frame_line(llrs: &[u16], line: &mut [u8]) -> u8
    ensures { LineWritten llrs.now line.old line.new result }
{
    status(writer::write_frame_line(llrs, line))
}
