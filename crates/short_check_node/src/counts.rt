// The threshold of the penalties that are tried.
ghost use Rattle.std.specs.Prelude.{◌≡◌, ◌≤◌};
ghost use Rattle.vector.specs.Vector.{AtMost};
ghost use Rattle.reorder.specs.Order.{Small};
ghost use Rattle.scms.specs.Tried.{count_below};
ghost use Rattle.short_check_node.specs.Masks.{Threshold};

// How many of the 64 penalties are below t.
pub(crate) fn count_below(v: &[u16; 64], t: u16) -> u16
    ensures { result ≡ count_below v.now t }
{
    let mut count: u16 = 0;
    for x in v {
        count += u16::from(*x < t);
    }
    count
}

// A penalty that none of the 64 is above.
fn largest_of(v: &[u16; 64]) -> u16
    requires { Small v.now }
    ensures { AtMost result v.now × (result ≤ 8191) }
{
    v.iter().copied().max().unwrap_or(0)
}

// The threshold of m values, by halving: at most m penalties are below it, and at least m not above it.
pub(crate) fn threshold(v: &[u16; 64], m: u16) -> u16
    requires { Small v.now × (1 ≤ m) × (m ≤ 64) }
    ensures { Threshold m v.now result }
{
    let mut t: u16 = 0;
    let mut n = largest_of(v) + 1;
    while 1 < n {
        let half = n / 2;
        if count_below(v, t + half) < m {
            t += half;
        }
        n -= half;
    }
    t
}
