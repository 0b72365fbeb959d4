// The soft demapper: samples to penalties.
ghost use Rattle.std.specs.Prelude.{◌≡◌, length};
ghost use Rattle.refusal.specs.Table.{refusal_of};
ghost use Rattle.refusal.specs.Kinds.{number};
ghost use Rattle.demapper.specs.Demap.{frame_of, length_rows, setting_rows, demap_refusal, Demapped};
ghost use Rattle.demapper.specs.Parts.{Symbols};

use crate::chips::chips_twice;
use crate::gain::Gain;
use crate::samples::symbol_llrs;
use ccsk::check_base;
use refusal::{Refusal, require};

// Goes down the rows on the samples and the buffer: whole symbols, 1 to 256 of them, and room for their penalties.
#[tactic(auto, unfolding(refusal::specs::Table::refusal_of, refusal::specs::Tests::outside, refusal::specs::Tests::unequal))]
fn check_lengths(samples: &[i8], llrs: &[u16]) -> Result<(), Refusal>
    ensures { number result ≡ refusal_of (length_rows (length samples.now) llrs.now) }
{
    require(samples.len() % 64 == 0, Refusal::Length)?;
    require((1..=256).contains(&(samples.len() / 64)), Refusal::Length)?;
    require(llrs.len() == samples.len(), Refusal::Length)
}

// Goes down the rows on the precision, the base and the gain.
#[tactic(auto, using(refusal::proofs::KindLaws::number_nonzero), unfolding(refusal::specs::Table::refusal_of, refusal::specs::Tests::outside))]
fn check_settings(base: u64, gain: Gain, qc: u32) -> Result<(), Refusal>
    ensures { number result ≡ refusal_of (setting_rows base gain.top gain.bottom qc) }
{
    require((1..=5).contains(&qc), Refusal::Precision)?;
    check_base(base)?;
    gain.check()
}

// Goes down the table of `demap`, in document 01's order.
fn check(base: u64, samples: &[i8], gain: Gain, qc: u32, llrs: &[u16]) -> Result<(), Refusal>
    ensures { number result ≡ demap_refusal base gain.top gain.bottom qc samples.now llrs.now }
{
    check_lengths(samples, llrs)?;
    check_settings(base, gain, qc)
}

// Writes the penalties of every symbol, 64 for each.
fn write_llrs(base: u64, samples: &[i8], gain: Gain, qc: u32, llrs: &mut [u16])
    requires { Symbols gain.top gain.bottom qc samples.now llrs.old }
    ensures { llrs.new ≡ frame_of base gain.top gain.bottom qc samples.now }
{
    let chips = chips_twice(base);
    for i in 0..samples.len() / 64 {
        let at = 64 * i;
        let v = symbol_llrs(&chips, &samples[at..at + 64], gain, qc);
        vector::store(&v, i, llrs);
    }
}

// Weighs samples, 64 to a symbol: for each symbol the 64 penalties of its values. Each is the sum of the magnitudes of
// the samples whose hard chip differs from the value's chip, less the least of the 64, times the gain, rounded down,
// capped at 2^Qc - 1. A sample of -128 is a lost one: its magnitude is 0, and it adds nothing for any value. The
// penalties are then in the buffer lent for them. Refuses by the lowest of Length (2), Precision (3), Base (10) and
// Gain (11) that fits, and leaves the buffer as it came.
#[tactic(auto, using(refusal::proofs::KindLaws::left_kept, refusal::proofs::KindLaws::left_made), unfolding(crate::specs::Demap::demap_buffer))]
pub fn demap(
    base: u64,
    samples: &[i8],
    gain: Gain,
    qc: u32,
    llrs: &mut [u16],
) -> Result<(), Refusal>
    ensures { Demapped base gain.top gain.bottom qc samples.now llrs.old llrs.new (number result) }
{
    check(base, samples, gain, qc, llrs)?;
    write_llrs(base, samples, gain, qc, llrs);
    Ok(())
}
