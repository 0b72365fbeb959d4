// What the penalties of a frame are refused by.
ghost use Rattle.std.specs.Prelude.{◌≡◌, ◌/◌, length};
ghost use Rattle.refusal.specs.Table.{refusal_of};
ghost use Rattle.refusal.specs.Tests.{any_outside, any_to};
ghost use Rattle.refusal.specs.Kinds.{number};
ghost use Rattle.vector.specs.Vector.{vector_at};
ghost use Rattle.decoder_refusal.specs.Refusals.{no_zero, greatest, penalty_table};

use refusal::{Refusal, require};

// The greatest number of the frame, 0 where it has none.
fn greatest(frame: &[u16]) -> u16
    ensures { result ≡ greatest frame.now }
{
    let mut most: u16 = 0;
    for x in frame {
        most = most.max(*x);
    }
    most
}

// Whether some number of the frame is above `most`.
#[tactic(auto, using(crate::proofs::RefusalLaws::greatest_above))]
fn any_above(frame: &[u16], most: u16) -> bool
    ensures { result ≡ any_outside 0 most frame.now }
{
    most < greatest(frame)
}

// Whether the 64 penalties of one of the frame's vectors hold no zero.
fn any_without_zero(frame: &[u16]) -> bool
    ensures { result ≡ any_to (length frame.now / 64) (λ i. no_zero (vector_at frame.now i)) }
{
    let count = frame.len() / 64;
    'vectors: for i in 0..count {
        for b in 0..64 {
            if frame[64 * i + b] == 0 {
                continue 'vectors;
            }
        }
        return true;
    }
    false
}

// Refuses a frame's penalties, for any slice: by Penalty (8) where one is above `most`, else by NoZero (9) where the 64
// of one symbol hold no zero. Numbers after the last whole vector of 64 count for 8 alone.
#[tactic(auto, unfolding(refusal::specs::Table::refusal_of))]
pub fn check_frame(frame: &[u16], most: u16) -> Result<(), Refusal>
    ensures { number result ≡ refusal_of (penalty_table most frame.now) }
{
    require(!any_above(frame, most), Refusal::Penalty)?;
    require(!any_without_zero(frame), Refusal::NoZero)
}
