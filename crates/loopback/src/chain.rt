// The round trip of a message: the whole chain, without noise.
ghost use Rattle.std.specs.Prelude.{◌≡◌};
ghost use Rattle.link.specs.Noiseless.{message_samples};
ghost use Rattle.loopback.specs.Refusals.{received, trip_now};
ghost use Rattle.loopback.specs.RoundTrip.{trip_after, RoundTrip};
ghost use Rattle.loopback.specs.Parts.{SendingWith, Sending};

use crate::given::{Reception, Transmission, TripLent};
use crate::message::read_message;
use crate::samples::write_samples;
use crate::table::check;
use decoder_refusal::Lent;
use refusal::Refusal;

// Writes the samples of a message sent without noise: encodes it, spreads its codeword to numbers, and makes the
// samples of these. Lent besides are buffers for the codeword and for the numbers. No call in it refuses what it is
// given: that is proved.
fn send_with(s: &Transmission, codeword: &mut [u8], numbers: &mut [u64], samples: &mut [i8])
    requires { SendingWith s.now codeword.old numbers.old samples.old }
    ensures { samples.new ≡ message_samples s.now }
{
    let _ = polar::encode(&s.code, s.message, codeword);
    let _ = ccsk::spread(s.base, codeword, numbers);
    write_samples(numbers, s.amplitude, samples);
}

// The same with buffers of its own for the codeword and for the numbers.
fn send(s: &Transmission, samples: &mut [i8])
    requires { Sending s.now samples.old }
    ensures { samples.new ≡ message_samples s.now }
{
    // Room for the longest codeword.
    let mut codeword = [0u8; 256];
    let mut numbers = [0u64; 256];
    let size = s.code.map.len();
    send_with(s, &mut codeword[..size], &mut numbers[..size], samples);
}

// Sends a message without noise and decodes what is received: encodes it, spreads it by the base, makes the samples +A
// and -A of an amplitude A from 1 to 127, weighs them, decodes the frame, and reads the message from the symbols
// decided. A probe and a receiver can run it to test themselves: the caller compares the decoded message with the
// message. Answers what `decode` answers for that frame, with the samples, the frame, the decoder's symbols, report and
// totals and the decoded message in the buffers lent for them, and the work buffer all zeros. Refuses by the first of
// Layers (1), Length (2), Precision (3), Candidates (13), MapByte (4), NoMessagePlace (5), Coefficient (6), Symbol (7),
// Base (10), Gain (11) and Amplitude (19) that fits, in this order, and leaves every buffer as it came. The decoded
// message is the message, for every number of candidates, where each wrong symbol's penalty is still at least 1 after
// rounding. That is where, for every shift from 1 to 63, top x A x the number of chips in which it differs from shift 0
// is at least bottom; for every base that is not refused 2 x A x top >= bottom is enough.
pub fn round_trip(s: &Transmission, r: Reception, lent: TripLent<'_>) -> Result<u32, Refusal>
    ensures { RoundTrip s.now (received r) (trip_now lent.entry) (trip_after lent.exit) result }
{
    check(s, r, &lent)?;
    let TripLent {
        samples,
        frame,
        work,
        symbols,
        report,
        totals,
        decoded,
    } = lent;
    send(s, samples);
    let _ = demapper::demap(s.base, samples, r.gain, r.settings.qc, frame);
    let decoder = Lent {
        work,
        symbols: &mut *symbols,
        report,
        totals,
    };
    let answer = decoder::decode(&s.code, r.settings, frame, decoder);
    read_message(s.code.map, symbols, decoded);
    answer
}
