// Whether the premise of the noiseless statement holds.
ghost use Rattle.std.specs.Prelude.{◌≡◌};
ghost use Rattle.refusal.specs.Kinds.{number};
ghost use Rattle.refusal.specs.Tests.{Within};
ghost use Rattle.distances.specs.Premise.{premise_refusal, premise_fails, PremiseAnswered};

use crate::distance::least_apart;
use ccsk::check_base;
use demapper::Gain;
use refusal::Refusal;

// Goes down the table of `premise_holds`, in document 01's order.
#[tactic(auto, using(refusal::proofs::KindLaws::number_nonzero), unfolding(refusal::specs::Table::refusal_of, crate::specs::Premise::premise_refusal))]
fn check(base: u64, gain: Gain) -> Result<(), Refusal>
    ensures { number result ≡ premise_refusal base gain.top gain.bottom }
{
    check_base(base)?;
    gain.check()
}

// Whether the answer is no, for a gain that is accepted: the amplitude is outside 1 to 127, or amplitude × top × least
// distance is below bottom.
#[tactic(auto, using(crate::proofs::DistanceLaws::least_few), unfolding(refusal::specs::Tests::outside, crate::specs::Premise::premise_fails))]
fn premise_fails(base: u64, amplitude: u32, gain: Gain) -> bool
    requires { Within 1 255 gain.top }
    ensures { result ≡ premise_fails base amplitude gain.top gain.bottom }
{
    if !(1..=127).contains(&amplitude) {
        return true;
    }
    amplitude * gain.top * least_apart(base) < gain.bottom
}

// Whether each wrong symbol's penalty is still at least 1 after rounding, for a message sent without noise with this
// base and this amplitude and weighed with the gain. For an amplitude from 1 to 127 it is so where amplitude × top ×
// least distance is at least bottom, whatever the code, the message and the precision; for any other amplitude the
// answer is no. Refuses by the lowest of Base (10) and Gain (11) that fits.
pub fn premise_holds(base: u64, amplitude: u32, gain: Gain) -> Result<bool, Refusal>
    ensures { PremiseAnswered base amplitude gain.top gain.bottom result }
{
    check(base, gain)?;
    Ok(!premise_fails(base, amplitude, gain))
}
