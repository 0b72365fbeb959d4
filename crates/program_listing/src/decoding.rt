// A frame decoded as the program decodes it, and its listing.
ghost use Rattle.std.specs.Prelude.{◌≡◌};
ghost use Rattle.refusal.specs.Kinds.{number};
ghost use Rattle.decoder_refusal.specs.Refusals.{lent_now};
ghost use Rattle.program_listing.specs.Listing.{program_listing, Listable, Listed};
ghost use Rattle.program_listing.specs.Parts.{Decoding};

use crate::lines::write_listing;
use crate::table::check;
use decoder_refusal::{Lent, Settings};
use polar_code::Code;
use refusal::Refusal;

// The program's precisions, Qc = 5 and Qm = 13, and full check nodes.
const SETTINGS: Settings = Settings {
    qc: 5,
    qm: 13,
    candidates: 64,
};

// The numbers of the longest work buffer: 65 for each of 256 places.
const LONGEST_WORK: usize = 16640;

// And of the longest report: 64 for each.
const LONGEST_REPORT: usize = 16384;

// Decodes at the program's settings and writes the listing. The decoder does not refuse what was accepted here.
fn list_decoded(code: &Code, frame: &[u16], lent: Lent<'_>, output: &mut [u8])
    requires { Decoding code.now frame.now output.old (lent_now lent) }
    ensures { output.new ≡ program_listing code.now frame.now }
{
    let Lent {
        work,
        symbols,
        report,
        totals,
    } = lent;
    let lent = Lent {
        work,
        symbols: &mut *symbols,
        report: &mut *report,
        totals,
    };
    let count = decoder::decode(code, SETTINGS, frame, lent).unwrap_or(0);
    write_listing(symbols, report, count, output);
}

// The same with buffers of its own.
fn list_frame(code: &Code, frame: &[u16], output: &mut [u8])
    requires { Listable code.now frame.now output.old }
    ensures { output.new ≡ program_listing code.now frame.now }
{
    let mut work = [0u16; LONGEST_WORK];
    let mut symbols = [0u8; 256];
    let mut report = [0u16; LONGEST_REPORT];
    let mut totals = [0u16; 256];
    let size = code.map.len();
    let lent = Lent {
        work: &mut work[..65 * size],
        symbols: &mut symbols[..size],
        report: &mut report[..64 * size],
        totals: &mut totals[..size],
    };
    list_decoded(code, frame, lent, output);
}

// What the program prints for a frame of a code: decodes the frame, 64 penalties for each of the N places, at Qc = 5
// and Qm = 13, and writes into a buffer of just 21 N + 6 bytes a line for each place in rising order (place, symbol,
// penalty held for that symbol, least penalty held for any other value, in five columns each) and last a line with the
// count of clipped entries. Refuses by the first of Layers (1), Length (2), MapByte (4), NoMessagePlace (5),
// Coefficient (6), Penalty (8) and NoZero (9) that fits, in this order, and then the buffer is as it came.
#[tactic(auto, using(refusal::proofs::KindLaws::left_kept, refusal::proofs::KindLaws::left_made), unfolding(crate::specs::Listing::listing_buffer))]
pub fn decode_listing(code: &Code, frame: &[u16], output: &mut [u8]) -> Result<(), Refusal>
    ensures { Listed code.now frame.now output.old output.new (number result) }
{
    check(code, frame, output)?;
    list_frame(code, frame, output);
    Ok(())
}
