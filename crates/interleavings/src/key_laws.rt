//! A law of the key that a Remove takes. The function does nothing; its contract is the law.

ghost use Rattle.interleavings.specs.KeyLaws.{RemovesTakeTheirKey};

use crate::laws::a_step_does_what_its_seat_is_told;

/// No step of a Remove takes the name of a key that is not its queue's: a key that its seat holds
/// behind the step it held before, or it is that of the queue in the system after the journal. So
/// it holds no other's, also where it is refused and no longer knows its key, and after its Decide.
pub fn a_remove_takes_the_key_of_its_queue<K>()
    ensures { RemovesTakeTheirKey K }
{
    a_step_does_what_its_seat_is_told::<K>();
}
