// The decoder: a frame of penalties to the symbols of its word.
ghost use Rattle.decoder_refusal.specs.Refusals.{lent_now};
ghost use Rattle.decoder.specs.Decode.{lent_after, Decoded};

use crate::block::decode_block;
use crate::vectors::BlockAt;
use decoder_refusal::{Lent, Settings, check};
use polar_code::Code;
use refusal::Refusal;

// Decodes a frame: 64 penalties of at most 2^Qc - 1, a 0 among them, for each of the N places of the code. Answers the
// count of clipped entries, with the symbols of the N places, the report (the 64 penalties held for each place when it
// was decided) and the totals (for each place what was taken off along its line: with 64 candidates and in an unclipped
// frame the least total of all words that begin with the symbols decided before it) in the buffers lent for them, and
// the work buffer, of 65 N numbers, all zeros. Refuses by the first of Layers (1), Length (2), Precision (3),
// Candidates (13), MapByte (4), NoMessagePlace (5), Coefficient (6), Penalty (8) and NoZero (9) that fits, in this
// order, and leaves every buffer as it came.
pub fn decode(
    code: &Code,
    settings: Settings,
    frame: &[u16],
    lent: Lent<'_>,
) -> Result<u32, Refusal>
    ensures { Decoded code.now settings frame.now (lent_now lent.entry) (lent_after lent.exit) result }
{
    check(code, settings, frame, &lent)?;
    let Lent {
        work,
        symbols,
        report,
        totals,
    } = lent;
    // The transform of the symbols decided: room for the longest word.
    let mut word = [0u8; 256];
    let table = gf64::products();
    let size = code.map.len();
    let whole = BlockAt {
        layers: code.n,
        start: 0,
        at: 0,
        places: size,
        cap: vector::largest(settings.qm),
        candidates: settings.candidates as usize,
        taken: 0,
    };
    let count = decode_block(
        whole,
        code.coefs,
        &table,
        code.map,
        frame,
        work,
        &mut word[..size],
        symbols,
        report,
        totals,
    );
    work.fill(0);
    Ok(count)
}
