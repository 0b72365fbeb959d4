// Opening and reading files.
ghost use Rattle.std.specs.Prelude.{◌≤◌, length};

use std::io::Read;
use std::rt::Files;
use std::{fs, str};

// Opens a file by its name, to read it; none where it can't be opened.
pub(crate) fn open_some<R: Files>(rt: &R, name: &[u8]) -> Option<R::File> {
    let path = str::from_utf8(name).ok()?;
    fs::open(rt, path).ok()
}

// Reads until buf is full, the file ends or a read fails, and returns how many bytes were read. No byte is asked for
// once buf is full.
fn read_full<F: Read>(file: &mut F, buf: &mut [u8]) -> usize
    ensures { result ≤ length buf.new }
{
    let size = buf.len();
    let mut rest = buf;
    while !rest.is_empty() {
        let Ok(got @ 1..) = file.read(rest) else {
            break;
        };
        rest = &mut rest[got..];
    }
    size - rest.len()
}

// The same of a file that may not have been opened: then it counts as empty.
pub(crate) fn read_some<F: Read>(file: &mut Option<F>, buf: &mut [u8]) -> usize
    ensures { result ≤ length buf.new }
{
    match file {
        Some(opened) => read_full(opened, buf),
        None => 0,
    }
}
