// The product of GF(64) worked out by the rule a^6 = a + 1, with no table.
ghost use Rattle.std.specs.Prelude.{◌≡◌, ◌*◌, ◌<◌};
ghost use Rattle.gf64.specs.Field.{◌⊕◌, times_a, IsProduct};

// a times a symbol: each coefficient moves up by one, and an a^6 becomes a + 1.
#[tactic(auto, using(crate::proofs::SumLaws::sum_symbol), unfolding(crate::specs::Field::times_a))]
fn times_a(x: u8) -> u8
    requires { x < 64 }
    ensures { (result ≡ times_a x) × (result < 64) }
{
    if x < 32 { x * 2 } else { (x * 2 - 64) ^ 3 }
}

// The product with one bit more of the first factor: a times the product of the bits above it, plus y where the bit is
// set.
#[tactic(auto, using(crate::proofs::SumLaws::sum_symbol, crate::proofs::ProductLaws::bit_lt))]
fn with_bit(above: u8, bit: u8, y: u8) -> u8
    requires { (above < 64) × (bit < 2) × (y < 64) }
    ensures { (result ≡ times_a above ⊕ (bit * y)) × (result < 64) }
{
    times_a(above) ^ (bit * y)
}

// The product of two symbols, worked out by Horner's rule over the bits of the first. Of a factor above 63 the six low
// bits count. It is what `product` reads from the table, for every two bytes.
pub fn worked_out_product(x: u8, y: u8) -> u8
    ensures { IsProduct x y result }
{
    let x0 = x % 64;
    let y0 = y % 64;
    let mut above = 0;
    for i in 0..6u32 {
        above = with_bit(above, (x0 >> (5 - i)) % 2, y0);
    }
    above
}
