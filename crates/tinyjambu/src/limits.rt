ghost use Rattle.std.specs.Prelude.{◌≡◌};
ghost use Rattle.tinyjambu.specs.Answers.{limit_answer, room_answer};

use refusal::Refusal;

// The most bytes of associated data, and of text.
const LONGEST: usize = 65536;

// Refuses where `taken` bytes and `more` pass the limit.
pub(crate) fn check_limit(taken: usize, more: usize, refusal: Refusal) -> Result<(), Refusal>
    ensures { result ≡ limit_answer taken more refusal }
{
    if more > LONGEST || taken > LONGEST - more {
        return Err(refusal);
    }
    Ok(())
}

// Refuses an out buffer that has not the room for so many bytes. (Roll's `give` and a floor's read test the like: one test for
// all would be public, and these add to the refusal what it is about.)
pub(crate) fn check_room(room: usize, bytes: usize) -> Result<(), Refusal>
    ensures { result ≡ room_answer room bytes }
{
    if room < bytes {
        return Err(Refusal::OutTooShort);
    }
    Ok(())
}
