// The distance of a shift, and the least of a base.
ghost use Rattle.std.specs.Prelude.{◌≡◌};
ghost use Rattle.distances.specs.Distance.{
  shift_distance,
  least_distance,
  DistanceAnswered,
  LeastAnswered,
};

use ccsk::{check_base, turned};
use refusal::Refusal;

// In how many chips shift s of any base differs from shift 0: the ones in the exclusive or of the base and its
// rotation.
pub(crate) fn chips_apart(base: u64, s: u64) -> u32
    ensures { result ≡ shift_distance base s }
{
    (base ^ turned(base, s)).count_ones()
}

// The least of these over the shifts 1 to 63, for any base.
pub(crate) fn least_apart(base: u64) -> u32
    ensures { result ≡ least_distance base }
{
    let mut least = chips_apart(base, 1);
    for i in 1..63 {
        least = least.min(chips_apart(base, i + 1));
    }
    least
}

// The distance of a shift: in how many chips shift s of the base differs from shift 0. s counts mod 64, so a multiple
// of 64 has distance 0. Two symbols differ in as many chips as the distance of the shift that is their difference.
// Refuses the base by Base (10).
pub fn shift_distance(base: u64, s: u64) -> Result<u32, Refusal>
    ensures { DistanceAnswered base s result }
{
    check_base(base)?;
    Ok(chips_apart(base, s))
}

// The least distance of the shifts 1 to 63 of a base, which is even and at least 2. Refuses the base by Base (10).
pub fn least_distance(base: u64) -> Result<u32, Refusal>
    ensures { LeastAnswered base result }
{
    check_base(base)?;
    Ok(least_apart(base))
}
