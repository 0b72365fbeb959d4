// What a round trip is given.
ghost use Rattle.link.specs.Noiseless as specs;

use decoder_refusal::Settings;
use demapper::Gain;
use polar_code::Code;
use std::marker::Model;

// What is sent, and how.
#[derive(Drop)]
pub struct Transmission<'a> {
    pub code: Code<'a>,
    // A symbol for each message place of the code.
    pub message: &'a [u8],
    // The base by which the codeword is spread.
    pub base: u64,
    // A sample is the amplitude for a chip 0, and less it for a chip 1.
    pub amplitude: u32,
}

impl<'a> Model for Transmission<'a> {
    ghost Value = { specs.Transmission };

    ghost view = { λ s. record { code = s.code; message = s.message.now; base = s.base; amplitude = s.amplitude } };
}

// How it is received.
#[derive(Clone, Copy, Debug, PartialEq, Eq)]
pub struct Reception {
    pub gain: Gain,
    pub settings: Settings,
}

// The buffers that a caller lends to be written, N places and K message places being sent: those of the decoder, and
// beside them those for the samples, the frame and the decoded message.
#[derive(Drop)]
pub struct TripLent<'a> {
    // 64 N samples.
    pub samples: &'a mut [i8],
    // 64 N penalties.
    pub frame: &'a mut [u16],
    // 65 N entries to work in.
    pub work: &'a mut [u16],
    // N bytes: the symbols decided.
    pub symbols: &'a mut [u8],
    // 64 N penalties: those held when each place was decided.
    pub report: &'a mut [u16],
    // N numbers: what was taken off along the line of each place.
    pub totals: &'a mut [u16],
    // K bytes: the decoded message.
    pub decoded: &'a mut [u8],
}
