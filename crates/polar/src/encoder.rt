// The encoder: a message to its codeword.
ghost use Rattle.std.specs.Prelude.{◌≡◌};
ghost use Rattle.refusal.specs.Kinds.{number};
ghost use Rattle.polar.specs.Encode.{encode_refusal, Encoded};

use crate::places::place_message;
use crate::transform::transform_block;
use polar_code::{Code, message_places};
use refusal::{Refusal, any_outside, require};

// Goes down the table of `encode`, in document 01's order.
#[tactic(auto, unfolding(refusal::specs::Table::refusal_of, refusal::specs::Tests::unequal, crate::specs::Encode::encode_refusal))]
fn check(code: &Code, message: &[u8], codeword: &[u8]) -> Result<(), Refusal>
    ensures { number result ≡ encode_refusal code.now message.now codeword.now }
{
    code.check_sizes()?;
    require(message.len() == message_places(code.map), Refusal::Length)?;
    require(codeword.len() == code.map.len(), Refusal::Length)?;
    code.check_bytes()?;
    require(!any_outside(message, 0, 63), Refusal::Symbol)?;
    Ok(())
}

// Encodes a message: its symbols fill the message places of the map, and the transform turns that word into the
// codeword, which is then in the buffer lent for it. Refuses by the lowest of Layers (1), Length (2), MapByte (4),
// NoMessagePlace (5), Coefficient (6) and Symbol (7) that fits, and leaves the buffer as it came.
#[tactic(auto, using(refusal::proofs::KindLaws::left_kept, refusal::proofs::KindLaws::left_made), unfolding(crate::specs::Encode::encode_buffer))]
pub fn encode(code: &Code, message: &[u8], codeword: &mut [u8]) -> Result<(), Refusal>
    ensures { Encoded code.now message.now codeword.old codeword.new (number result) }
{
    check(code, message, codeword)?;
    let half = code.map.len() / 2;
    place_message(code.map, message, codeword);
    let table = gf64::products();
    transform_block(code.n, half, 0, half, code.coefs, &table, codeword);
    Ok(())
}
