// The kinds of places, by the bytes of the frozen map.
ghost use Rattle.std.specs.Prelude.{◌≡◌, ◌==◌};
ghost use Rattle.polar_code.specs.Code.{kind_of, message_count, message_places};

// What a place before the transform holds.
#[derive(Clone, Copy, Debug, PartialEq, Eq)]
pub enum Kind {
    // The next symbol of the message.
    Message,
    // Always this symbol.
    Frozen(u8),
}

impl Kind {
    // Whether it is that of a message place.
    #[tactic(auto, unfolding(crate::specs::Code::message_count))]
    pub fn is_message(self) -> bool
        ensures { result ≡ (message_count self == 1) }
    {
        matches!(self, Kind::Message)
    }
}

impl From<u8> for Kind {
    ghost from_gives = { λ byte kind. kind ≡ kind_of byte };

    // The kind of a place with this map byte: 0 is a message place, any other byte a frozen place, which holds 0.
    #[tactic(auto, unfolding(crate::specs::Code::kind_of))]
    fn from(byte: u8) -> Kind {
        if byte == 0 {
            Kind::Message
        } else {
            Kind::Frozen(0)
        }
    }
}

// How many places of the map are message places (document 01: K).
pub fn message_places(map: &[u8]) -> usize
    ensures { result ≡ message_places map.now }
{
    let mut count = 0;
    for byte in map {
        count += usize::from(Kind::from(*byte).is_message());
    }
    count
}
