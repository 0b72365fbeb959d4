// What `decode` refuses its input by.
ghost use Rattle.std.specs.Prelude.{◌≡◌, ◌/◌, length};
ghost use Rattle.refusal.specs.Table.{refusal_of};
ghost use Rattle.refusal.specs.Kinds.{number};
ghost use Rattle.decoder_refusal.specs.Refusals.{lent_now, size_table, content_table, decode_refusal};

use crate::frame::check_frame;
use crate::lent::Lent;
use crate::settings::Settings;
use polar_code::Code;
use refusal::{Refusal, require};

// Goes down the rows on n and the lengths.
#[tactic(auto, using(refusal::proofs::KindLaws::number_nonzero), unfolding(refusal::specs::Table::refusal_of, refusal::specs::Tests::unequal))]
fn check_sizes(code: &Code, frame: &[u16], lent: &Lent) -> Result<(), Refusal>
    ensures { number result ≡ refusal_of (size_table code.now frame.now (lent_now lent.now)) }
{
    code.check_sizes()?;
    let size = code.map.len();
    require(frame.len() == 64 * size, Refusal::Length)?;
    require(lent.work.len() == 65 * size, Refusal::Length)?;
    require(lent.symbols.len() == size, Refusal::Length)?;
    require(lent.report.len() == 64 * size, Refusal::Length)?;
    require(lent.totals.len() == size, Refusal::Length)
}

// Goes down the rows on the settings and on what the map, the coefficients and the frame hold.
fn check_contents(code: &Code, settings: Settings, frame: &[u16]) -> Result<(), Refusal>
    ensures { number result ≡ refusal_of
        (content_table (length frame.now / 64) code.now.map code.now.coefs settings frame.now) }
{
    settings.check()?;
    code.check_bytes()?;
    check_frame(frame, vector::largest(settings.qc))
}

// Refuses what `decode` refuses: by the first of Layers (1), Length (2), Precision (3), Candidates (13), MapByte (4),
// NoMessagePlace (5), Coefficient (6), Penalty (8) and NoZero (9) that fits, in this order.
pub fn check(code: &Code, settings: Settings, frame: &[u16], lent: &Lent) -> Result<(), Refusal>
    ensures { number result ≡ decode_refusal code.now settings frame.now (lent_now lent.now) }
{
    check_sizes(code, frame, lent)?;
    check_contents(code, settings, frame)
}
