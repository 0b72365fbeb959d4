// The chips of the base sequence.
ghost use Rattle.std.specs.Prelude.{◌≡◌, [], ◌∷◌};
ghost use Rattle.refusal.specs.Table.{refusal_of};
ghost use Rattle.refusal.specs.Kinds.{number};
ghost use Rattle.ccsk.specs.Chips.{turned, base_row};

use refusal::{Refusal, require};

// A base turned by s chips, for any base and any s: chip k of the result is base chip (k + s) mod 64. For a symbol s it
// is the number that the symbol is sent as; a base that equals itself turned by 32 chips is one that `spread` and
// `demap` refuse.
pub fn turned(base: u64, s: u64) -> u64
    ensures { result ≡ turned base s }
{
    base.rotate_right((s % 64) as u32)
}

// Refuses by Base (10) a base that equals itself turned by 32 chips.
#[tactic(auto, unfolding(refusal::specs::Table::refusal_of))]
pub fn check_base(base: u64) -> Result<(), Refusal>
    ensures { number result ≡ refusal_of (base_row base ∷ []) }
{
    require(turned(base, 32) != base, Refusal::Base)
}
