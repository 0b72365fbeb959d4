// The differences that the steps of a check node add: of neighbouring penalties in the order of the steps. They wrap
// around in 16 bits where they are below 0.
ghost use Rattle.std.specs.Prelude.{◌≡◌};
ghost use Rattle.check_node.specs.Steps.{penalties_before, differences};

use reorder::replace_part;
use std::array;

// For each value the penalty at the value of the step before it, for value 0 its own: the last values of the columns
// come before 1 to 7, and in a column each value before the one 8 further.
fn penalties_before(ordered: &[u16; 64]) -> [u16; 64]
    ensures { result ≡ penalties_before ordered.now }
{
    let mut before = *ordered;
    replace_part(ordered, 56, 0, &mut before, 1, 7);
    replace_part(ordered, 0, 0, &mut before, 8, 56);
    before
}

// For each value the penalty at the value before it, less its own.
pub(crate) fn differences(ordered: &[u16; 64]) -> [u16; 64]
    ensures { result ≡ differences ordered.now }
{
    let before = penalties_before(ordered);
    array::from_fn(|c| before[c].wrapping_sub(ordered[c]))
}
