// The chips of the base sequence, for the demapper.
ghost use Rattle.std.specs.Prelude.{◌≡◌};
ghost use Rattle.demapper.specs.Parts.{chips_twice};

// The chips of the base twice over, 0 or 1 each, so that the chips of a symbol s are 64 neighbours from s on.
pub(crate) fn chips_twice(base: u64) -> [u16; 128]
    ensures { result ≡ chips_twice base }
{
    let mut chips = [0u16; 128];
    for j in 0..128 {
        chips[j] = ((base >> (j % 64)) % 2) as u16;
    }
    chips
}
