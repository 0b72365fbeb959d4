// Limits that bytes have to keep.
ghost use Rattle.std.specs.Prelude.{◌≡◌};
ghost use Rattle.refusal.specs.Tests.{any_outside};

// Whether some byte of s is below low or above high. The least and the greatest are kept on the way and judged at the
// end: with no way out of the loop the compiler takes many bytes at a time.
pub fn any_outside(s: &[u8], low: u8, high: u8) -> bool
    ensures { result ≡ any_outside low high s.now }
{
    let mut least = low;
    let mut most = high;
    for x in s {
        least = least.min(*x);
        most = most.max(*x);
    }
    least < low || high < most
}
