// The gain of the demapper.
ghost use Rattle.std.specs.Prelude.{◌≡◌, [], ◌∷◌};
ghost use Rattle.refusal.specs.Table.{refusal_of};
ghost use Rattle.refusal.specs.Kinds.{number};
ghost use Rattle.demapper.specs.Demap.{gain_row};

use refusal::{Refusal, require};

// What a number is multiplied by: top over bottom.
#[derive(Clone, Copy, Debug, PartialEq, Eq)]
pub struct Gain {
    pub top: u32,
    pub bottom: u32,
}

impl Gain {
    // Refuses by Gain (11) where top or bottom is 0 or above 255.
    #[tactic(auto, unfolding(refusal::specs::Table::refusal_of, refusal::specs::Tests::outside))]
    pub fn check(self) -> Result<(), Refusal>
        ensures { number result ≡ refusal_of (gain_row self.top ∷ gain_row self.bottom ∷ []) }
    {
        require((1..=255).contains(&self.top), Refusal::Gain)?;
        require((1..=255).contains(&self.bottom), Refusal::Gain)
    }
}
