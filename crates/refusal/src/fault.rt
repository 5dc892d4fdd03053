ghost use Rattle.std.specs.Prelude.{◌≡◌, Some};
ghost use Rattle.refusal.specs.Refusals.{outside, fault_text};

use crate::refusal::Refusal;
use std::error::Error;
use std::fmt;

// A refusal, and where in a roll it came from: the floor and the entry number. They are 0 and 0 outside rolls and no `Option`,
// since the printed form, which is fixed, has two numbers for every fault.
#[derive(Clone, Copy, PartialEq, Eq, Debug)]
pub struct Fault {
    pub refusal: Refusal,
    pub floor: u32,
    pub entry: u32,
}

// The fault of a call outside rolls.
impl From<Refusal> for Fault {
    ghost from_gives = { λ refusal fault. fault ≡ outside refusal };

    fn from(refusal: Refusal) -> Fault {
        refusal.at(0, 0)
    }
}

// A fault prints with its number, words, floor and entry. (`Display` and `Error` are not derived, for the same reasons as a
// refusal's: a derived `Display` states no `ghost output`.)
impl fmt::Display for Fault {
    ghost output = { λ fault. Some (fault_text fault) };

    fn fmt<W: fmt::Write>(&self, f: &mut fmt::Formatter<W>) -> fmt::Result {
        let refusal = self.refusal;
        let number = u8::from(refusal);
        let floor = self.floor;
        let entry = self.entry;
        write!(
            f,
            "refusal {number}: {refusal} (floor {floor}, entry {entry})"
        )
    }
}

impl Error for Fault {}
