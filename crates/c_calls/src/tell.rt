// The answer of a call with one number, told in C.
ghost use Rattle.refusal.specs.Kinds.{returned};
ghost use Rattle.c_calls.specs.Calls.{Told};

use refusal::Refusal;

// Puts what a call answers into a lent number and returns 0; or returns the number of the refusal, and leaves the lent
// number as it came.
#[tactic(auto, unfolding(crate::specs::Calls::first_or))]
pub(crate) fn tell(answer: Result<u32, Refusal>, value: &mut u32) -> u8
    ensures { Told (returned answer) value.old value.new result }
{
    match answer {
        Ok(count) => {
            *value = count;
            0
        }
        Err(refusal) => u8::from(refusal),
    }
}
