ghost use Rattle.std.specs.Prelude.{◌≡◌, [], ◌∷◌, refl};
ghost use Rattle.std.proofs.Common.{ap};
ghost use Rattle.roll.specs.Roll.{count, append_answer};
ghost use Rattle.roll.specs.Floor.{nonce, above, raised, sealed};
ghost use Rattle.roll.specs.Kinds.{kind_byte};
ghost use Rattle.roll.specs.Labels.{nonce_of, data_of};
ghost use Rattle.roll.specs.Laws.{raised_lawful};
ghost use Rattle.floor.specs.Own.{own_layer};

use crate::lay::Lay;
use roll::{Kind, LONGEST, Label, MOST, Nonce, Roll};
use tinyjambu::{Engine, Fault, Refusal, Wipe};

// A seal of its own over each entry of the roll below.
#[derive(Drop)]
pub struct Floor<R, E> {
    below: R,
    engine: E,
    kind: Kind,
}

// The bytes that a seal adds to a text.
const TAG: u32 = 8;

// The number of the highest floors.
const HIGHEST: u32 = 65535;

impl<R: Roll, E: Engine> Floor<R, E> {
    // The number that a text will have as an entry, or why it is refused at this floor. (Tape and pocket ask the like in their
    // appends. One function for every roll, called in an impl of the trait, leads back to the impl, which the check does not
    // cover: it was tried. One over floor, count, bound, most, space and charge is no plainer, and a pocket is never full by
    // its count. The floor's number is passed in, since a call asks the roll below for it once.)
    fn admit(&self, floor: u32, text: &[u8]) -> Result<u32, Fault>
        requires { floor ≡ above (R.Roll.meaning self.now.below) }
        ensures { result ≡ append_answer (raised (own_layer E.key self.now) (R.Roll.meaning self.now.below)) text.now }
    {
        let entry = self.count();
        let len = text.len();
        if len >= self.bound() as usize {
            return Err(Refusal::EntryTooLong.at(floor, entry));
        }
        if entry >= MOST {
            return Err(Refusal::RollFull.at(floor, entry));
        }
        if self.space() < self.charge(len as u32) {
            return Err(Refusal::NoSpace.at(floor, entry));
        }
        Ok(entry)
    }

    // What an entry is sealed under at this floor.
    fn label(&self, floor: u32, entry: u32) -> Label
        ensures nonce { nonce_of result ≡ nonce (R.Roll.meaning self.now.below).name floor entry }
        ensures data { data_of result ≡ kind_byte self.now.kind ∷ [] }
    {
        Label {
            nonce: Nonce {
                name: self.name(),
                floor,
                entry,
            },
            kind: self.kind,
        }
    }
}

impl<R: Roll, E: Engine> Roll for Floor<R, E> {
    ghost meaning = { λ s. raised (own_layer E.key s) (R.Roll.meaning s.below) };

    ghost bottom = { λ s. R.Roll.bottom s.below };

    ghost layers = { λ s. own_layer E.key s ∷ R.Roll.layers s.below };

    ghost image = { λ s. R.Roll.image s.below };

    ghost put = { λ s t. R.Roll.writes (R.Roll.bottom s.below) (R.Roll.image s.below) (sealed (own_layer E.key s ∷ R.Roll.layers s.below) (R.Roll.bottom s.below) (count (R.Roll.bottom s.below)) t) };

    ghost writes = { R.Roll.writes };

    ghost stands = { λ s. ap (raised (own_layer E.key s)) (R.Roll.stands s.below) };

    ghost lawful = { λ s. R.Roll.lawful s.below };

    ghost lawful_top = { λ s. raised_lawful (own_layer E.key s) (R.Roll.meaning s.below) (R.Roll.lawful_top s.below) };

    ghost puts = { λ s t. refl };

    fn name(&self) -> u32 {
        self.below.name()
    }

    fn floor(&self) -> u32 {
        (self.below.floor() + 1).min(HIGHEST)
    }

    fn bound(&self) -> u32 {
        self.below.bound().saturating_sub(TAG)
    }

    fn space(&self) -> u32 {
        self.below.space()
    }

    fn count(&self) -> u32 {
        self.below.count()
    }

    // A text that is too long costs nothing below either.
    fn charge(&self, n: u32) -> u32 {
        self.below.charge(n.saturating_add(TAG))
    }

    fn length(&self, entry: u32) -> Result<usize, Fault> {
        self.below
            .length(entry)
            .map(|n| n.saturating_sub(TAG as usize))
            .map_err(|_| Refusal::NoEntry.at(self.floor(), entry))
    }

    // It refuses before it seals: the nonce of a refused text comes again.
    fn append(&mut self, text: &[u8]) -> Result<u32, Fault> {
        let floor = self.floor();
        let entry = self.admit(floor, text)?;
        let label = self.label(floor, entry);
        // A buffer with a length beside it: no heap, and a seal is written into a slice.
        let mut sealed = [0u8; LONGEST];
        let n = label.seal(&mut self.engine, text, &mut sealed).unwrap();
        self.below.append(&sealed[..n])
    }

    // It opens what it read below straight into `out`.
    fn read(&mut self, entry: u32, out: &mut [u8]) -> Result<usize, Fault> {
        let guard = Wipe { out };
        let len = self.length(entry)?;
        let floor = self.floor();
        let label = self.label(floor, entry);
        // As in roll's `give` and in the cipher: one test for all would be public, and here it adds the floor and the entry.
        if guard.out.len() < len {
            return Err(Refusal::OutTooShort.at(floor, entry));
        }
        // A buffer with a length beside it: no heap, and a roll reads into a slice.
        let mut sealed = [0u8; LONGEST];
        let n = self.below.read(entry, &mut sealed)?;
        let text = &mut guard.out[0..len];
        let opened = label
            .open(&mut self.engine, &sealed[..n], text)
            .map_err(|_| Refusal::Broken.at(floor, entry));
        opened?;
        guard.keep();
        Ok(len)
    }
}

impl<R: Roll, E: Engine> Lay<R, E> for Floor<R, E> {
    ghost under = { λ s. s.below };

    ghost works = { λ s. s.engine };

    ghost sort = { λ s. s.kind };

    fn lay(below: R, engine: E, kind: Kind) -> Floor<R, E> {
        Floor {
            below,
            engine,
            kind,
        }
    }

    fn lift(self) -> (R, E) {
        let Floor {
            below,
            engine,
            kind: _,
        } = self;
        (below, engine)
    }
}
