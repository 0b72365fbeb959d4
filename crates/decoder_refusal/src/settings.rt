// The settings of the decoder.
ghost use Rattle.std.specs.Prelude.{◌≡◌};
ghost use Rattle.refusal.specs.Table.{refusal_of};
ghost use Rattle.refusal.specs.Kinds.{number};
ghost use Rattle.decoder_refusal.specs.Refusals.{settings_rows};

use refusal::{Refusal, require};

// What a caller of `decode` sets beside the code.
#[derive(Clone, Copy, Debug, PartialEq, Eq)]
pub struct Settings {
    // Qc: the penalties of a frame are at most 2^Qc - 1.
    pub qc: u32,
    // Qm: the internal precision.
    pub qm: u32,
    // How many values a check node tries, 1 to 64; 64 are all.
    pub candidates: u32,
}

impl Settings {
    // Refuses by Precision (3) where Qc is outside 1 to 5 or Qm outside Qc to 13, else by Candidates (13) where the
    // number of values is outside 1 to 64. A call that decodes what it has sent tries them too.
    #[tactic(auto, unfolding(refusal::specs::Table::refusal_of, refusal::specs::Tests::outside))]
    pub fn check(self) -> Result<(), Refusal>
        ensures { number result ≡ refusal_of (settings_rows self) }
    {
        require((1..=5).contains(&self.qc), Refusal::Precision)?;
        require((self.qc..=13).contains(&self.qm), Refusal::Precision)?;
        require((1..=64).contains(&self.candidates), Refusal::Candidates)
    }
}
