// The places before the transform, by the frozen map.
ghost use Rattle.std.specs.Prelude.{◌≡◌};
ghost use Rattle.polar.specs.Encode.{word_before};
ghost use Rattle.polar.specs.Parts.{Placing};

use polar_code::Kind;

// Writes the word before the transform: the symbols at the message places in rising order, at a frozen place the
// symbol that it always holds.
pub(crate) fn place_message(map: &[u8], symbols: &[u8], word: &mut [u8])
    requires { Placing map.now symbols.now word.old }
    ensures { word.new ≡ word_before map.now symbols.now }
{
    let mut left = symbols.iter();
    for (j, byte) in map.iter().enumerate() {
        word[j] = match Kind::from(*byte) {
            Kind::Message => left.next().copied().unwrap_or(0),
            Kind::Frozen(symbol) => symbol,
        };
    }
}
