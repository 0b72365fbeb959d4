// What is drawn: the states of a 32-bit linear congruential generator.

// The generator, by its state.
#[derive(Clone, Copy)]
pub(crate) struct Draws {
    state: u32,
}

impl From<u32> for Draws {
    // The draws that begin with a seed.
    fn from(seed: u32) -> Draws {
        Draws { state: seed }
    }
}

impl Draws {
    // The next draw: the upper 16 bits of the next state.
    pub(crate) fn draw(&mut self) -> u16 {
        self.state = self.state.wrapping_mul(1664525).wrapping_add(1013904223);
        (self.state >> 16) as u16
    }
}
