// Why a call refuses what it is given.
ghost use Rattle.std.specs.Prelude.{◌≡◌, true, false, not, IfErr, OnOk};
ghost use Rattle.refusal.specs.Kinds.{number_of, number};
ghost use Rattle.refusal.specs.Walk.{first};

// A refusal: what was wrong with what a call was given. Each has its number in document 01's table 'Refused', or one
// that a later call added.
#[derive(Clone, Copy, Debug, PartialEq, Eq)]
pub enum Refusal {
    // 1: n, the number of layers, is outside 1 to 8.
    Layers,
    // 2: a slice has a length other than needed.
    Length,
    // 3: a precision is out of range.
    Precision,
    // 4: a byte of the frozen map is above 1.
    MapByte,
    // 5: no place is a message place.
    NoMessagePlace,
    // 6: a coefficient is 0 or above 63.
    Coefficient,
    // 7: a symbol to encode or spread is above 63.
    Symbol,
    // 8: a penalty is above the largest of its precision.
    Penalty,
    // 9: the 64 penalties of some symbol hold no zero.
    NoZero,
    // 10: the base equals itself turned by 32 chips.
    Base,
    // 11: top or bottom of the gain is 0 or above 255.
    Gain,
    // 12: a sheet or a frame file breaks its form.
    Form,
    // 13: the number of values that a check node tries is outside 1 to 64.
    Candidates,
    // 19: the amplitude is outside 1 to 127.
    Amplitude,
}

impl From<Refusal> for u8 {
    ghost from_gives = { λ refusal r. r ≡ number_of refusal };

    // The number of a refusal.
    fn from(refusal: Refusal) -> u8 {
        match refusal {
            Refusal::Layers => 1,
            Refusal::Length => 2,
            Refusal::Precision => 3,
            Refusal::MapByte => 4,
            Refusal::NoMessagePlace => 5,
            Refusal::Coefficient => 6,
            Refusal::Symbol => 7,
            Refusal::Penalty => 8,
            Refusal::NoZero => 9,
            Refusal::Base => 10,
            Refusal::Gain => 11,
            Refusal::Form => 12,
            Refusal::Candidates => 13,
            Refusal::Amplitude => 19,
        }
    }
}

// A row of a table: passes where what the row asks for holds, and else gives its refusal. In numbers it is the step of
// going down a table by a row, from no refusal on.
#[tactic(auto, unfolding(crate::specs::Walk::or_else, crate::specs::Walk::first))]
pub fn require(holds: bool, refusal: Refusal) -> Result<(), Refusal>
    ensures passed { OnOk result (holds ≡ true) }
    ensures refused { IfErr result (λ r. (r ≡ refusal) × (holds ≡ false)) }
    ensures stepped { number result ≡ first 0 (number_of refusal) (not holds) }
{
    if holds { Ok(()) } else { Err(refusal) }
}

// The number that a caller in C is given: 0 where the call accepted its input, else that of the refusal.
pub fn status(answer: Result<(), Refusal>) -> u8
    ensures { result ≡ number answer }
{
    match answer {
        Ok(()) => 0,
        Err(refusal) => u8::from(refusal),
    }
}
