// The vectors of the frame and after them those of the work buffer, numbered from 0 on: the frame has the first N of
// them. A block's own vectors are those from one number on, and its halves use those after them.
ghost use Rattle.std.specs.Prelude.{◌≡◌, ◌++◌, ◌+◌, ◌*◌, ◌≤◌, length};
ghost use Rattle.vector.specs.Vector.{vector_at};
ghost use Rattle.decoder.specs.Parts.{Numbered};

// A block of 2^layers places: where it lies, and what its nodes go by.
#[derive(Clone, Copy)]
pub(crate) struct BlockAt {
    // The number of its layers.
    pub layers: usize,
    // The number of the first coefficient of the kernels that join its halves. Those of the next layer come N/2 later.
    pub start: usize,
    // The number of its first vector.
    pub at: usize,
    // N, how many places the whole word has.
    pub places: usize,
    // The cap of the variable nodes.
    pub cap: u16,
    // How many values a check node tries.
    pub candidates: usize,
    // What was taken off along the line of each of its places, before its own layers.
    pub taken: u16,
}

// Vector i of a slice that has it.
pub(crate) fn vector_of(s: &[u16], i: usize) -> [u16; 64]
    requires { 64 * (i + 1) ≤ length s.now }
    ensures { result ≡ vector_at s.now i }
{
    let mut v = [0u16; 64];
    v.copy_from_slice(&s[64 * i..64 * i + 64]);
    v
}

// Vector i, the frame having the first N.
pub(crate) fn load_vector(places: usize, frame: &[u16], work: &[u16], i: usize) -> [u16; 64]
    requires { Numbered places i frame.now work.now }
    ensures { result ≡ vector_at (frame.now ++ work.now) i }
{
    if i < places {
        return vector_of(frame, i);
    }
    vector_of(work, i - places)
}
