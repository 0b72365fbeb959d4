// Spreading: symbols to the numbers that they are sent as.
ghost use Rattle.std.specs.Prelude.{◌≡◌, length};
ghost use Rattle.refusal.specs.Kinds.{number};
ghost use Rattle.ccsk.specs.Spread.{numbers_of, spread_refusal, Spread};

use crate::chips::{check_base, turned};
use refusal::{Refusal, any_outside, require};

// Goes down the table of `spread`, in document 01's order.
#[tactic(auto, unfolding(refusal::specs::Table::refusal_of, refusal::specs::Tests::outside, refusal::specs::Tests::unequal, crate::specs::Spread::spread_refusal))]
fn check(base: u64, symbols: &[u8], numbers: &[u64]) -> Result<(), Refusal>
    ensures { number result ≡ spread_refusal base symbols.now numbers.now }
{
    require((1..=256).contains(&symbols.len()), Refusal::Length)?;
    require(numbers.len() == symbols.len(), Refusal::Length)?;
    require(!any_outside(symbols, 0, 63), Refusal::Symbol)?;
    check_base(base)?;
    Ok(())
}

// Writes the number that each symbol is sent as.
fn write_numbers(base: u64, symbols: &[u8], numbers: &mut [u64])
    requires { length numbers.old ≡ length symbols.now }
    ensures { numbers.new ≡ numbers_of base symbols.now }
{
    for (i, symbol) in symbols.iter().enumerate() {
        numbers[i] = turned(base, u64::from(*symbol));
    }
}

// Spreads symbols to chips: each is sent as the base turned by its value, one 64-bit number a symbol, whose chip k is
// bit k. The numbers are then in the buffer lent for them. Refuses by the lowest of Length (2), Symbol (7) and Base
// (10) that fits, and leaves the buffer as it came.
#[tactic(auto, using(crate::proofs::SpreadLaws::accepted, refusal::proofs::KindLaws::left_kept, refusal::proofs::KindLaws::left_made), unfolding(crate::specs::Spread::spread_buffer))]
pub fn spread(base: u64, symbols: &[u8], numbers: &mut [u64]) -> Result<(), Refusal>
    ensures { Spread base symbols.now numbers.old numbers.new (number result) }
{
    check(base, symbols, numbers)?;
    write_numbers(base, symbols, numbers);
    Ok(())
}
