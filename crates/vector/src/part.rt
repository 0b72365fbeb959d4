// The part of one place.
ghost use Rattle.std.specs.Prelude.{◌≡◌, ◌*◌, ◌<◌};
ghost use Rattle.vector.specs.Part.{Handed};

// Where the penalties of a place start.
fn start_of(place: usize) -> usize
    requires { 64 * place < 18446744073709551616 }
    ensures { result ≡ 64 * place }
{
    64 * place
}

// The 64 penalties of one place, as a part of the slice that holds the whole frame: nothing is copied. The empty part
// where the slice isn't whole vectors of 64, or the place is outside it.
pub fn place_llrs(llrs: &[u16], place: usize) -> &[u16]
    ensures { Handed llrs.now llrs.entry.ref_ptr place result.now result.ref_ptr }
{
    if llrs.len() % 64 != 0 {
        return &llrs[0..0];
    }
    if llrs.len() / 64 <= place {
        return &llrs[0..0];
    }
    let start = start_of(place);
    let end = start + 64;
    &llrs[start..end]
}
