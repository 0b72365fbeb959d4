// The shifts of a base that lie within some number of chips of shift 0.
ghost use Rattle.std.specs.Prelude.{◌≡◌, length};
ghost use Rattle.refusal.specs.Kinds.{number};
ghost use Rattle.distances.specs.Shifts.{near_shifts, with_zeros, shifts_refusal, ShiftsListed};

use crate::distance::chips_apart;
use ccsk::check_base;
use refusal::{Refusal, require};

// Goes down the table of `shifts_within`, in its order.
#[tactic(auto, using(refusal::proofs::KindLaws::number_nonzero), unfolding(refusal::specs::Table::refusal_of, refusal::specs::Tests::unequal, crate::specs::Shifts::shifts_refusal))]
fn check(base: u64, shifts: &[u8]) -> Result<(), Refusal>
    ensures { number result ≡ shifts_refusal base shifts.now }
{
    require(shifts.len() == 63, Refusal::Length)?;
    check_base(base)
}

// Writes the shifts from 1 to 63 within d chips in rising order, and zeros after them, and returns the count of the
// shifts. Each byte is set to 0 as its turn comes, and a shift goes to the first byte that holds none.
fn write_shifts(base: u64, d: u32, shifts: &mut [u8]) -> u32
    requires { length shifts.old ≡ 63 }
    ensures { (result ≡ length (near_shifts base d)) × (shifts.new ≡ with_zeros 63 (near_shifts base d)) }
{
    let mut count: usize = 0;
    for i in 0..63 {
        shifts[i] = 0;
        let s = i + 1;
        if chips_apart(base, s as u64) <= d {
            shifts[count] = s as u8;
            count += 1;
        }
    }
    count as u32
}

// Lists the shifts of a base from 1 to 63 that lie within d chips of shift 0, at most d that is, in rising order in a
// buffer of 63 bytes whose unused end is set to 0. Answers their count. Refuses by the first of Length (2, a buffer of
// another length) and Base (10) that fits, and leaves the buffer as it came.
pub fn shifts_within(base: u64, d: u32, shifts: &mut [u8]) -> Result<u32, Refusal>
    ensures { ShiftsListed base d shifts.old shifts.new result }
{
    check(base, shifts)?;
    Ok(write_shifts(base, d, shifts))
}
