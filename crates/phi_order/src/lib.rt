// Phi's vector in the order of c, in which both nodes of a kernel use it.
#![tactic(auto)]

ghost use Rattle.std.specs.Prelude.{◌≡◌, ℕ, ◌+◌, ◌%◌, ◌<◌, get_or};
ghost use Rattle.vector.specs.Vector.{tabulate};
ghost use Rattle.vector.specs.Frame.{largest_llr};
ghost use Rattle.reorder.specs.Order.{low_bits};
ghost use Rattle.phi_order.specs.Order.{ordered_by};

use gf64::Products;
use reorder::LLRS;
// The entries of a vector that 64 products name, of each the thirteen low bits. The
// inner loop has four turns, which the compiler lays out.
fn gathered(v: &[u16; 64], products: &[u8; 64]) -> [u16; 64]
    requires { (k : ℕ) → k < 64 → get_or products.now k 0 < 64 }
    ensures { result ≡ tabulate 64 (λ k.
        get_or v.now (get_or products.now k 0) 0 % (largest_llr + 1)) }
{
    let mut r = [0u16; 64];
    for q in 0..16 {
        for j in 0..4 {
            let k = 4 * q + j;
            r[k] = v[usize::from(products[k])] % LLRS;
        }
    }
    r
}

// Phi's vector in the order of c: its penalty at h times c, for each c, the products of h being read from the table
// that is lent. Of each penalty the thirteen low bits count. Made once for each kernel, so that each product is read
// once.
pub fn ordered(phi: &[u16; 64], table: &Products, h: u8) -> [u16; 64]
    ensures { result ≡ ordered_by table.now h (low_bits phi.now) }
{
    let products = gf64::row_from(table, h);
    gathered(phi, &products)
}
