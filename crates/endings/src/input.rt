// Reading lines.
ghost use Rattle.std.specs.Prelude.{◌≤◌, length};

use std::io::BufRead;

// The next byte of a line, none where a line feed or the end of the input ends it.
fn line_byte<F: BufRead>(input: &mut F) -> Option<u8> {
    let byte = *input.fill_buf().ok()?.first()?;
    input.consume(1);
    Some(byte).filter(|byte| *byte != b'\n')
}

// Reads the next line of the input, without its line feed: empty where the input ends. A line that is longer than the
// buffer is read as two.
pub(crate) fn read_line<'a, F: BufRead>(input: &mut F, buffer: &'a mut [u8]) -> &'a [u8]
    ensures { length result.now ≤ length buffer.old }
{
    for (end, place) in buffer.iter_mut().enumerate() {
        match line_byte(input) {
            Some(byte) => *place = byte,
            None => return &buffer[..end],
        }
    }
    buffer
}
