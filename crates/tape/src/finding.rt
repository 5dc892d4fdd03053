ghost use Rattle.std.specs.Prelude.{◌≡◌, ◌<◌, Some};
ghost use Rattle.roll.specs.Roll.{count, text, entry};
ghost use Rattle.tape.specs.Tape.{tape};

use crate::judging::{begin_of, end_of};

// The bytes of an entry, which the tape on a memory has.
#[tactic(auto, using(crate::proofs::Tapes::stands_in))]
pub(crate) fn entry_part(memory: &[u8], number: u32) -> &[u8]
    requires { number < count (tape memory.now) }
    ensures { entry (tape memory.now) number ≡ Some (text result.now) }
{
    &memory[begin_of(memory, number)..end_of(memory, number)]
}
