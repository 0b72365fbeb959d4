// The samples of what is sent without noise.
ghost use Rattle.std.specs.Prelude.{◌≡◌, ◌≤◌, ◌<◌};
ghost use Rattle.ccsk.specs.Chips.{chip};
ghost use Rattle.demapper.specs.Noiseless.{sent_sample, number_samples};
ghost use Rattle.loopback.specs.Parts.{Sampling};

// The sample of chip k of a number: +A at a chip 0 and -A at a chip 1, A the amplitude.
fn sent_sample(number: u64, k: u64, amplitude: u32) -> i8
    requires { (k < 64) × (amplitude ≤ 127) }
    ensures { result ≡ sent_sample amplitude (chip number k) }
{
    let level = amplitude as i8;
    if (number >> k) % 2 == 0 {
        level
    } else {
        0 - level
    }
}

// Writes the samples of the numbers that symbols are sent as, 64 for each.
pub(crate) fn write_samples(numbers: &[u64], amplitude: u32, samples: &mut [i8])
    requires { Sampling numbers.now amplitude samples.old }
    ensures { samples.new ≡ number_samples amplitude numbers.now }
{
    for j in 0..samples.len() {
        samples[j] = sent_sample(numbers[j / 64], (j % 64) as u64, amplitude);
    }
}
