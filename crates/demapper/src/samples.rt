// From the 64 samples of a symbol to its 64 penalties.
ghost use Rattle.std.specs.Prelude.{◌≡◌, ◌*◌, ◌/◌, ◌^◌, ◌≤◌, ◌<◌, length};
ghost use Rattle.demapper.specs.Samples.{hard_chip, magnitude, added, quantised, quantised_llrs};
ghost use Rattle.demapper.specs.Parts.{raw_to, with_sample, OneSample, Scale, llrs_by};

use crate::gain::Gain;

// The hard chip of a sample: 1 where it is below 0, else 0.
#[tactic(auto, using(crate::proofs::SignedLaws::sign), unfolding(crate::specs::Samples::hard_chip))]
fn hard_chip(sample: i8) -> u16
    ensures { result ≡ hard_chip sample }
{
    if sample < 0 { 1 } else { 0 }
}

// The magnitude of a sample; that of -128, a lost sample, is 0. The remainder changes no other: with a test for -128 in
// its place a sample costs three instructions more.
#[tactic(auto, using(crate::proofs::SignedLaws::sized))]
fn magnitude(sample: i8) -> u16
    ensures { (result ≡ magnitude sample) × (result ≤ 127) }
{
    u16::from(sample.unsigned_abs()) % 128
}

// What a sample adds to the raw penalty of a symbol with this chip there: its size where its hard chip is the other
// one.
#[tactic(auto, unfolding(crate::specs::Samples::added))]
fn added(chip: u16, hard: u16, size: u16) -> u16
    ensures { (result ≡ added chip hard size) × (result ≤ size) }
{
    if hard == chip { 0 } else { size }
}

// The 64 sums with sample k added to each.
fn with_sample(sums: &[u16; 64], chips: &[u16; 128], k: usize, hard: u16, size: u16) -> [u16; 64]
    requires { OneSample sums.now k size }
    ensures { result ≡ with_sample sums.now chips.now k hard size }
{
    let mut next = [0u16; 64];
    for s in 0..64 {
        next[s] = sums[s] + added(chips[k + s], hard, size);
    }
    next
}

// The 64 raw penalties: for each symbol the sum of the magnitudes of the samples whose hard chip differs from its chip.
fn raw_llrs(chips: &[u16; 128], samples: &[i8]) -> [u16; 64]
    requires { length samples.now ≡ 64 }
    ensures { result ≡ raw_to chips.now samples.now 64 }
{
    let mut sums = [0u16; 64];
    for (k, sample) in samples.iter().enumerate() {
        let y = *sample;
        sums = with_sample(&sums, chips, k, hard_chip(y), magnitude(y));
    }
    sums
}

// A quotient, rounded down.
fn rounded_down(x: u32, bottom: u32) -> u32
    requires { (x < 2 ^ 24) × (1 ≤ bottom) × (bottom ≤ 255) }
    ensures { result ≡ x / bottom }
{
    x / bottom
}

// A number times the gain, top over bottom, rounded down and capped.
fn quantised(x: u16, gain: Gain, qc: u32) -> u16
    requires { Scale gain.top gain.bottom qc }
    ensures { result ≡ quantised gain.top gain.bottom qc x }
{
    let scaled = rounded_down(u32::from(x) * gain.top, gain.bottom);
    let cap = vector::largest(qc);
    scaled.min(u32::from(cap)) as u16
}

// Each of 64 numbers so.
fn quantise(v: &[u16; 64], gain: Gain, qc: u32) -> [u16; 64]
    requires { Scale gain.top gain.bottom qc }
    ensures { result ≡ quantised_llrs gain.top gain.bottom qc v.now }
{
    let mut r = [0u16; 64];
    for (s, x) in v.iter().enumerate() {
        r[s] = quantised(*x, gain, qc);
    }
    r
}

// The 64 penalties of a symbol from its 64 samples: the raw ones, less the least of them, quantised.
pub(crate) fn symbol_llrs(chips: &[u16; 128], samples: &[i8], gain: Gain, qc: u32) -> [u16; 64]
    requires { (length samples.now ≡ 64) × Scale gain.top gain.bottom qc }
    ensures { result ≡ llrs_by chips.now gain.top gain.bottom qc samples.now }
{
    let raw = raw_llrs(chips, samples);
    let low = vector::subtract_least(&raw);
    quantise(&low.rest, gain, qc)
}
