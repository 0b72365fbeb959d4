// What `decode_listing` refuses its input by, in the order of document 01's table 'Refused'.
ghost use Rattle.std.specs.Prelude.{◌≡◌};
ghost use Rattle.refusal.specs.Table.{refusal_of};
ghost use Rattle.refusal.specs.Kinds.{number};
ghost use Rattle.program_listing.specs.Listing.{listing_sizes, listing_refusal};

use crate::lines::{LAST_LINE, LINE};
use decoder_refusal::check_frame;
use polar_code::Code;
use refusal::{Refusal, require};

// The largest penalty at the program's Qc, 5.
const LARGEST: u16 = 31;

// Goes down the rows on n and the lengths.
#[tactic(auto, using(refusal::proofs::KindLaws::number_nonzero), unfolding(refusal::specs::Table::refusal_of, refusal::specs::Tests::unequal))]
fn check_sizes(code: &Code, frame: &[u16], output: &[u8]) -> Result<(), Refusal>
    ensures { number result ≡ refusal_of (listing_sizes code.now frame.now output.now) }
{
    code.check_sizes()?;
    let size = code.map.len();
    require(frame.len() == 64 * size, Refusal::Length)?;
    require(output.len() == LINE * size + LAST_LINE, Refusal::Length)
}

// Goes down the whole table.
pub(crate) fn check(code: &Code, frame: &[u16], output: &[u8]) -> Result<(), Refusal>
    ensures { number result ≡ listing_refusal code.now frame.now output.now }
{
    check_sizes(code, frame, output)?;
    code.check_bytes()?;
    check_frame(frame, LARGEST)
}
