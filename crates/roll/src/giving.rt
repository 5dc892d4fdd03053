ghost use Rattle.std.specs.Prelude.{◌≡◌, length};
ghost use Rattle.roll.specs.Giving.{given_answer, given_out};

use crate::limits::FLOOR;
use tinyjambu::{Fault, Refusal, Wipe};

// Gives out what a bottom found of an entry: copies its bytes to the start of `out`, and answers how many. A refusal leaves
// only zeros in `out`. (A floor's read and the cipher test the room too: one function for them would be public, and each would
// add to its refusal what it is about, in as many lines.)
pub fn give(found: Result<&[u8], Fault>, entry: u32, out: &mut [u8]) -> Result<usize, Fault>
    ensures answer { result ≡ given_answer found.entry entry (length out.old) }
    ensures out { out.new ≡ given_out found.entry out.old }
{
    let guard = Wipe { out };
    let bytes = found?;
    let len = bytes.len();
    if guard.out.len() < len {
        return Err(Refusal::OutTooShort.at(FLOOR, entry));
    }
    guard.out[0..len].copy_from_slice(bytes);
    guard.keep();
    Ok(len)
}
