ghost use Rattle.std.specs.Prelude.{◌≡◌, ◌≤◌, [], length, replicate, refl};
ghost use Rattle.roll.specs.Giving.{Finds};
ghost use Rattle.pocket.specs.Pocket.{paged, paged_all, pocket, pocket_writes};
ghost use Rattle.pocket.specs.declared.pocket.TheConstants.{SIZE};

use arrayvec::ArrayVec;
use roll::{FLOOR, Roll, give};
use tinyjambu::{Fault, Refusal};

// How many pages a pocket has, and the bytes of a page and of all.
const PAGES: usize = 64;

const PAGE: usize = 64;

const SIZE: usize = PAGES * PAGE;

// A roll on 64 pages of 64 bytes of its own, in which each entry begins on a page of its own.
#[derive(Drop)]
pub struct Pocket {
    name: u32,
    // An array, since a pocket has fixed memory: an entry begins on a page, and its length tells how much of its pages it fills.
    bytes: [u8; SIZE],
    lengths: ArrayVec<u32, PAGES>,
    ghost whole: { length bytes ≡ SIZE },
    ghost fits: { paged_all lengths.items ≤ SIZE },
}

// Every entry is shorter than this.
const BOUND: u32 = 513;

// The bytes of the pages that an entry takes, which is at least one.
fn paged(len: u32) -> usize
    ensures { result ≡ paged len }
{
    PAGE * (len as usize).div_ceil(PAGE).max(1)
}

// The bytes of the pages that entries of these lengths take, where the next entry begins.
fn paged_all(lengths: &[u32]) -> usize
    requires { paged_all lengths.now ≤ SIZE }
    ensures { result ≡ paged_all lengths.now }
{
    lengths.iter().map(|&len| paged(len)).sum()
}

impl Pocket {
    ghost use Rattle.pocket.specs.Held.{roll_of, pages_of};

    // An empty pocket under a name.
    pub fn new(name: u32) -> Pocket
        ensures empty { roll_of result ≡ pocket name (replicate SIZE 0) [] }
        ensures blank { pages_of result ≡ replicate SIZE 0 }
    {
        Pocket {
            name,
            bytes: [0; SIZE],
            lengths: ArrayVec::new(),
        }
    }

    // The bytes of an entry, or refusal 8.
    fn part(&self, entry: u32) -> Result<&[u8], Fault>
        ensures { Finds (roll_of self.now) entry result }
    {
        let Some(&len) = self.lengths.get(entry as usize) else {
            return Err(Refusal::NoEntry.at(FLOOR, entry));
        };
        let start = paged_all(&self.lengths[..entry as usize]);
        Ok(&self.bytes[start..start + len as usize])
    }
}

impl Roll for Pocket {
    ghost use Rattle.pocket.specs.Held.{roll_of, pages_of, pages_with, roll_lawful, pages_put};

    ghost meaning = { roll_of };

    ghost bottom = { roll_of };

    ghost layers = { λ s. [] };

    ghost image = { pages_of };

    ghost put = { pages_with };

    ghost writes = { pocket_writes };

    ghost stands = { λ s. refl };

    ghost lawful = { roll_lawful };

    ghost lawful_top = { roll_lawful };

    ghost puts = { pages_put };

    fn name(&self) -> u32 {
        self.name
    }

    // This, `length` and `read` stand in a tape too: as defaults of the trait they would be a floor's as well, which has no
    // such part.
    fn floor(&self) -> u32 {
        FLOOR
    }

    fn bound(&self) -> u32 {
        BOUND
    }

    fn space(&self) -> u32 {
        (SIZE - paged_all(&self.lengths)) as u32
    }

    fn count(&self) -> u32 {
        self.lengths.len() as u32
    }

    fn charge(&self, n: u32) -> u32 {
        if n < BOUND { paged(n) as u32 } else { 0 }
    }

    fn length(&self, entry: u32) -> Result<usize, Fault> {
        Ok(self.part(entry)?.len())
    }

    // Tape and floor ask the like, and `RollFull` besides. One function for every roll leads back to the impl, which the check
    // does not cover (tried); one over the numbers would take six, and be no plainer.
    fn append(&mut self, text: &[u8]) -> Result<u32, Fault> {
        let entry = self.count();
        let len = text.len();
        if len >= BOUND as usize {
            return Err(Refusal::EntryTooLong.at(FLOOR, entry));
        }
        let at = paged_all(&self.lengths);
        if SIZE - at < paged(len as u32) {
            return Err(Refusal::NoSpace.at(FLOOR, entry));
        }
        self.bytes[at..at + len].copy_from_slice(text);
        self.lengths.push(len as u32);
        Ok(entry)
    }

    fn read(&mut self, entry: u32, out: &mut [u8]) -> Result<usize, Fault> {
        give(self.part(entry), entry, out)
    }
}
