// A code as a call is given it, and what it is refused by: its layers and lengths, and the bytes of the frozen map and
// the coefficients.
ghost use Rattle.std.specs.Prelude.{◌≡◌, ◌≤◌, ◌*◌, ◌/◌, ◌^◌, OnOk, length};
ghost use Rattle.refusal.specs.Table.{refusal_of};
ghost use Rattle.refusal.specs.Kinds.{number};
ghost use Rattle.polar_code.specs.Code as specs;
ghost use Rattle.polar_code.specs.Code.{code_of, code_sizes, code_table};

use crate::kinds::message_places;
use crate::sizes::{kernel_count, place_count};
use refusal::{Refusal, any_outside, require};
use std::marker::Model;

// A code, whether a row refuses it or not.
#[derive(Drop)]
pub struct Code<'a> {
    // n, the number of layers.
    pub n: usize,
    // The frozen map: a byte for each place, 1 for a frozen place and 0 for a message place.
    pub map: &'a [u8],
    // The coefficients, one for each kernel.
    pub coefs: &'a [u8],
}

impl<'a> Model for Code<'a> {
    ghost Value = { specs.Code };

    ghost view = { λ c. code_of c.n c.map.now c.coefs.now };
}

impl<'a> Code<'a> {
    // Refuses by the code's sizes, whatever it is: Layers where n is outside 1 to 8, else Length where the map has not
    // 2^n bytes or there are not n × 2^n/2 coefficients. The bytes are not judged.
    #[tactic(auto, unfolding(refusal::specs::Table::refusal_of, refusal::specs::Tests::outside, refusal::specs::Tests::unequal, crate::specs::Sizes::places_of, crate::specs::Sizes::kernels_of))]
    pub fn check_sizes(&self) -> Result<(), Refusal>
        ensures refusal { number result ≡ refusal_of (code_sizes self.now) }
        ensures layers { OnOk result (self.now.n ≤ 8) }
        ensures places { OnOk result (length self.now.map ≡ 2 ^ self.now.n) }
        ensures kernels { OnOk result (length self.now.coefs ≡ self.now.n * (2 ^ self.now.n / 2)) }
    {
        require((1..=8).contains(&self.n), Refusal::Layers)?;
        require(self.map.len() == place_count(self.n), Refusal::Length)?;
        require(self.coefs.len() == kernel_count(self.n), Refusal::Length)?;
        Ok(())
    }

    // Refuses by the code's bytes, whatever it is: MapByte where a map byte is above 1, else NoMessagePlace where no
    // place is a message place, else Coefficient where a coefficient is 0 or above 63. The lengths are not judged.
    #[tactic(auto, unfolding(refusal::specs::Table::refusal_of))]
    pub fn check_bytes(&self) -> Result<(), Refusal>
        ensures { number result ≡ refusal_of (code_table self.now.map self.now.coefs) }
    {
        require(!any_outside(self.map, 0, 1), Refusal::MapByte)?;
        require(message_places(self.map) > 0, Refusal::NoMessagePlace)?;
        require(!any_outside(self.coefs, 1, 63), Refusal::Coefficient)?;
        Ok(())
    }
}
