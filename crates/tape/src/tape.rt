ghost use Rattle.std.specs.Prelude.{◌≡◌, [], refl};
ghost use Rattle.roll.specs.Giving.{Finds};
ghost use Rattle.tape.specs.Tape.{tape, tape_put};
ghost use Rattle.tape.specs.TapeLife.{TapeLives, TapeRests};
ghost use Rattle.tape.specs.TapeLaws.{tape_lawful};

use crate::extent::Extent;
use crate::finding::entry_part;
use crate::judging::{judge, word};
use crate::writing::write_entry;
use roll::{FLOOR, LONGEST, MOST, Roll, give};
use std::marker::Model;
use tinyjambu::{Fault, Refusal};

// A roll on given memory, which it owns while it stands.
#[derive(Drop)]
pub struct Tape {
    memory: Vec<u8>,
    extent: Option<Extent>,
}

// A tape is its memory, and the extent is what judging that finds.
impl Model for Tape {
    ghost use Rattle.std.specs.Prelude.{◌≡◌, ℕ, Vec};
    ghost use Rattle.std.specs.declared.alloc.Global.{Global};
    ghost use Rattle.tape.specs.Judged.{judged};

    ghost Value = { Vec ℕ Global };

    ghost view = { λ t. t.memory };

    ghost invariant = { λ t. t.extent ≡ judged t.memory.items };
}

// Every entry is shorter than this.
const BOUND: u32 = LONGEST as u32 + 1;

impl Tape {
    // Opens a memory, whatever it holds: if it is not in order, as a roll with nothing.
    pub fn open(memory: Vec<u8>) -> Tape
        ensures held { result ≡ memory }
        ensures life { TapeLives result.items }
        ensures rests { TapeRests result.items }
    {
        let extent = judge(&memory).ok();
        Tape { memory, extent }
    }

    // Gives the memory back.
    pub fn into_memory(self) -> Vec<u8>
        ensures { result ≡ self }
    {
        let Tape { memory, extent: _ } = self;
        memory
    }

    // The bytes of an entry, or refusal 8.
    fn part(&self, number: u32) -> Result<&[u8], Fault>
        ensures { Finds (tape self.now.items) number result }
    {
        if number >= self.count() {
            return Err(Refusal::NoEntry.at(FLOOR, number));
        }
        Ok(entry_part(&self.memory, number))
    }
}

impl Roll for Tape {
    ghost meaning = { λ s. tape s.items };

    ghost bottom = { λ s. tape s.items };

    ghost layers = { λ s. [] };

    ghost image = { λ s. s.items };

    ghost put = { λ s t. tape_put (tape s.items) s.items t };

    ghost writes = { tape_put };

    ghost stands = { λ s. refl };

    ghost lawful = { λ s. tape_lawful s.items };

    ghost lawful_top = { λ s. tape_lawful s.items };

    ghost puts = { λ s t. refl };

    // By no closure, here and in `space`: with `map_or` (tried) it has to state what the read and the subtractions need, and the
    // proof did not close.
    fn name(&self) -> u32 {
        let Some(_) = self.extent else {
            return 0;
        };
        word(&self.memory, 0)
    }

    // This, `length` and `read` stand in a pocket too: as defaults of the trait they would be a floor's as well, which has no
    // such part.
    fn floor(&self) -> u32 {
        FLOOR
    }

    fn bound(&self) -> u32 {
        self.extent.map_or(0, |_| BOUND)
    }

    fn space(&self) -> u32 {
        let Some(extent) = self.extent else {
            return 0;
        };
        (self.memory.len() - 4 * extent.count as usize - extent.end) as u32
    }

    fn count(&self) -> u32 {
        self.extent.map_or(0, |extent| extent.count)
    }

    fn charge(&self, n: u32) -> u32 {
        if n < self.bound() { n + 4 } else { 0 }
    }

    fn length(&self, entry: u32) -> Result<usize, Fault> {
        Ok(self.part(entry)?.len())
    }

    // Pocket and floor ask the like. One function for every roll leads back to the impl, which the check does not cover (tried);
    // one over the numbers would take six, and be no plainer.
    fn append(&mut self, text: &[u8]) -> Result<u32, Fault> {
        let entry = self.count();
        let Some(extent) = self.extent else {
            return Err(Refusal::EntryTooLong.at(FLOOR, entry));
        };
        let len = text.len();
        if len >= BOUND as usize {
            return Err(Refusal::EntryTooLong.at(FLOOR, entry));
        }
        if extent.count >= MOST {
            return Err(Refusal::RollFull.at(FLOOR, entry));
        }
        if (self.space() as usize) < len + 4 {
            return Err(Refusal::NoSpace.at(FLOOR, entry));
        }
        self.extent = Some(write_entry(&mut self.memory, extent, text));
        Ok(entry)
    }

    fn read(&mut self, entry: u32, out: &mut [u8]) -> Result<usize, Fault> {
        give(self.part(entry), entry, out)
    }
}
