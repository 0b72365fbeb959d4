// What is held for the values of a place.
ghost use Rattle.std.specs.Prelude.{◌≡◌, ◌≤◌};
ghost use Rattle.listing.specs.Listing.{held_for, other_value, least_other};

// The penalty held for a value, 0 where the slice has no such entry.
#[tactic(auto, unfolding(crate::specs::Listing::held_for))]
pub(crate) fn held_for(value: usize, llrs: &[u16]) -> u16
    ensures { result ≡ held_for value llrs.now }
{
    llrs.get(value).copied().unwrap_or(0)
}

// Number j of the values 0 to 63 but for the symbol, in rising order; for a number above 63 just j.
#[tactic(auto, unfolding(crate::specs::Listing::other_value))]
fn other_value(symbol: usize, j: usize) -> usize
    requires { j ≤ 62 }
    ensures { result ≡ other_value symbol j }
{
    if j < symbol { j } else { j + 1 }
}

// The least penalty held for any of the 63 other values; for a number above 63, which is no symbol, of the values 0 to
// 62.
pub(crate) fn least_other(symbol: usize, llrs: &[u16]) -> u16
    ensures { result ≡ least_other symbol llrs.now }
{
    (0..63)
        .map(|j| held_for(other_value(symbol, j), llrs))
        .min()
        .unwrap_or(0)
}
