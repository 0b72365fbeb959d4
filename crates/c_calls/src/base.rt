// The calls on a base: its chip distances, and whether the premise of the noiseless statement holds.
ghost use Rattle.c_calls.specs.Calls.{DistanceCalled, LeastCalled, ShiftsCalled, PremiseCalled};

use crate::tell::tell;
use demapper::Gain;

// The distance of a shift, as `distances::shift_distance`: in how many chips shift s of the base, s counted mod 64,
// differs from shift 0. Returns 0, with the distance in the number lent for it; or 10, and leaves it as it came.
#[unsafe(no_mangle)]
pub extern "C" fn zithejo_shift_distance(base: u64, s: u64, distance: &mut u32) -> u8
    ensures { DistanceCalled base s distance.old distance.new result }
{
    tell(distances::shift_distance(base, s), distance)
}

// The least distance of the shifts 1 to 63, as `distances::least_distance`. Returns 0, with the distance in the number
// lent for it; or 10, and leaves it as it came.
#[unsafe(no_mangle)]
pub extern "C" fn zithejo_least_distance(base: u64, distance: &mut u32) -> u8
    ensures { LeastCalled base distance.old distance.new result }
{
    tell(distances::least_distance(base), distance)
}

// Lists the shifts from 1 to 63 within d chips, as `distances::shifts_within`. Returns 0, with the shifts in rising
// order in the 63 bytes lent for them, zeros after them, and their count in the number lent for it; or the first
// refusal of 2 and 10 that fits, and leaves both as they came.
#[unsafe(no_mangle)]
pub extern "C" fn zithejo_shifts_within(base: u64, d: u32, shifts: &mut [u8], count: &mut u32) -> u8
    ensures { ShiftsCalled base d shifts.old shifts.new count.old
        count.new result }
{
    tell(distances::shifts_within(base, d, shifts), count)
}

// Whether the premise of the noiseless statement holds, as `distances::premise_holds`. Returns 0, with 1 for yes or 0
// for no in the number lent for it; or the lowest refusal of 10 and 11 that fits, and leaves it as it came.
#[unsafe(no_mangle)]
pub extern "C" fn zithejo_premise_holds(
    base: u64,
    amplitude: u32,
    top: u32,
    bottom: u32,
    holds: &mut u32,
) -> u8
    ensures { PremiseCalled base amplitude top bottom holds.old holds.new result }
{
    let answer = distances::premise_holds(base, amplitude, Gain { top, bottom });
    tell(answer.map(u32::from), holds)
}
