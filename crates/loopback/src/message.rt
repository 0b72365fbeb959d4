// The message in a word before the transform.
ghost use Rattle.std.specs.Prelude.{◌≡◌};
ghost use Rattle.polar.specs.Message.{message_of};
ghost use Rattle.loopback.specs.Parts.{Reading};

use polar_code::Kind;

// Reads the symbols at the message places of a word, in rising order.
pub(crate) fn read_message(map: &[u8], word: &[u8], message: &mut [u8])
    requires { Reading map.now word.now message.old }
    ensures { message.new ≡ message_of map.now word.now }
{
    let mut next: usize = 0;
    for (j, byte) in map.iter().enumerate() {
        if let Kind::Message = Kind::from(*byte) {
            message[next] = word[j];
            next += 1;
        }
    }
}
