// Samples made of chips: with an amplitude, noise, and samples that are lost.
use crate::draws::Draws;

// The chips of a number.
const CHIPS: usize = 64;

// How samples are made: the amplitude, the most that noise adds or takes away, and which draws are a sample of -128:
// those that `lost` divides, none where it is 0.
#[derive(Clone, Copy)]
pub(crate) struct Channel {
    pub(crate) amplitude: u8,
    pub(crate) noise: u8,
    pub(crate) lost: u64,
}

impl Channel {
    // What is sent for a chip: the amplitude, negative for chip 1.
    fn sent(&self, chip: bool) -> i16 {
        let amplitude = i16::from(self.amplitude);
        if chip { -amplitude } else { amplitude }
    }

    // The sample of a chip, from what is drawn for it.
    fn sample(&self, chip: bool, drawn: u16) -> i8 {
        if self.lost != 0 && u64::from(drawn) % self.lost == 0 {
            return -128;
        }
        let noise = u16::from(self.noise);
        let received = i32::from(self.sent(chip)) + i32::from(drawn % (2 * noise + 1))
            - i32::from(noise);
        received.clamp(-127, 127) as i8
    }

    // Makes the samples of numbers of 64 chips, one draw for each.
    pub(crate) fn make_samples(&self, seed: u32, numbers: &[u64], samples: &mut [i8]) {
        let mut draws = Draws::from(seed);
        for (i, sample) in samples.iter_mut().enumerate() {
            *sample = self.sample(chip(numbers, i), draws.draw());
        }
    }
}

// Chip i of numbers, 64 of each; 0 past their end.
fn chip(numbers: &[u64], i: usize) -> bool {
    numbers
        .get(i / CHIPS)
        .is_some_and(|number| (*number >> (i % CHIPS)) % 2 == 1)
}
