// What `round_trip` refuses its input by, in the order of its table.
ghost use Rattle.std.specs.Prelude.{◌≡◌};
ghost use Rattle.refusal.specs.Table.{refusal_of};
ghost use Rattle.refusal.specs.Kinds.{number};
ghost use Rattle.loopback.specs.Refusals.{received, trip_now, size_table, sent_rows, content_table, trip_refusal};

use crate::given::{Reception, Transmission, TripLent};
use ccsk::check_base;
use demapper::Gain;
use polar_code::message_places;
use refusal::{Refusal, any_outside, require};

// Goes down the rows on n and the lengths.
#[tactic(auto, using(refusal::proofs::KindLaws::number_nonzero), unfolding(refusal::specs::Table::refusal_of, refusal::specs::Tests::unequal))]
fn check_sizes(s: &Transmission, lent: &TripLent) -> Result<(), Refusal>
    ensures { number result ≡ refusal_of (size_table s.now (trip_now lent.now)) }
{
    s.code.check_sizes()?;
    let size = s.code.map.len();
    let places = message_places(s.code.map);
    require(s.message.len() == places, Refusal::Length)?;
    require(lent.samples.len() == 64 * size, Refusal::Length)?;
    require(lent.frame.len() == 64 * size, Refusal::Length)?;
    require(lent.work.len() == 65 * size, Refusal::Length)?;
    require(lent.symbols.len() == size, Refusal::Length)?;
    require(lent.report.len() == 64 * size, Refusal::Length)?;
    require(lent.totals.len() == size, Refusal::Length)?;
    require(lent.decoded.len() == places, Refusal::Length)
}

// Goes down the rows on the message, the base, the gain and the amplitude.
#[tactic(auto, using(refusal::proofs::KindLaws::number_nonzero), unfolding(refusal::specs::Table::refusal_of, refusal::specs::Tests::outside))]
fn check_sent(s: &Transmission, gain: Gain) -> Result<(), Refusal>
    ensures { number result ≡ refusal_of (sent_rows s.now gain.top gain.bottom) }
{
    require(!any_outside(s.message, 0, 63), Refusal::Symbol)?;
    check_base(s.base)?;
    gain.check()?;
    require((1..=127).contains(&s.amplitude), Refusal::Amplitude)
}

// Goes down the rows on the settings, the code's bytes, the message, the base, the gain and the amplitude.
fn check_contents(s: &Transmission, r: Reception) -> Result<(), Refusal>
    ensures { number result ≡ refusal_of (content_table s.now (received r)) }
{
    r.settings.check()?;
    s.code.check_bytes()?;
    check_sent(s, r.gain)
}

// Goes down the whole table.
pub(crate) fn check(s: &Transmission, r: Reception, lent: &TripLent) -> Result<(), Refusal>
    ensures { number result ≡ trip_refusal s.now (received r) (trip_now lent.now) }
{
    check_sizes(s, lent)?;
    check_contents(s, r)
}
