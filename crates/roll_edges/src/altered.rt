// A stored byte of one entry is altered between two openings of a tape.
use crate::common::{append_all, empty_tape, has_text, is_broken, key};
use floor::{Floor, Lay};
use roll::Kind;
use std::process::Abort;
use std::test::Fail;
use tape::Tape;
use tinyjambu::{Key, WordEngine};

// Two floors on a tape.
type Pile = Floor<Floor<Tape, WordEngine>, WordEngine>;

// Lays two floors on the tape that a memory holds.
fn laid(memory: Vec<u8>, lower: Key, upper: Key) -> Pile {
    let below = Floor::lay(Tape::open(memory), WordEngine::new(lower), Kind::Scene);
    Floor::lay(below, WordEngine::new(upper), Kind::Scene)
}

// The memory that a pile stands on.
fn memory_of(pile: Pile) -> Vec<u8> {
    let (below, _) = pile.lift();
    let (tape, _) = below.lift();
    tape.into_memory()
}

// Checks what three entries are when a byte of the middle one is altered in the tape: the lower floor cannot open it.
fn breaks_the_middle(rt: &impl Abort, memory: Vec<u8>, lower: Key, upper: Key) -> Vec<u8> {
    let mut pile = laid(memory, lower, upper);
    has_text(rt, &mut pile, 0, b"one");
    is_broken(rt, &mut pile, 1, 1, 6);
    has_text(rt, &mut pile, 2, b"");
    is_broken(rt, &mut pile, 1, 1, 6);
    memory_of(pile)
}

// Checks that the middle entry is broken while a byte at a place is another.
fn breaks_at(rt: &impl Abort, mut memory: Vec<u8>, at: usize, bits: u8, keys: [Key; 2]) -> Vec<u8> {
    let [lower, upper] = keys;
    assert!(rt; at < memory.len());
    memory[at] ^= bits;
    let mut memory = breaks_the_middle(rt, memory, lower, upper);
    assert!(rt; at < memory.len());
    memory[at] ^= bits;
    memory
}

// Checks that three entries read as they were appended.
fn reads_all(rt: &impl Abort, memory: Vec<u8>, lower: Key, upper: Key) {
    let mut pile = laid(memory, lower, upper);
    has_text(rt, &mut pile, 0, b"one");
    has_text(rt, &mut pile, 1, b"second");
    has_text(rt, &mut pile, 2, b"");
}

// Entry 0 has 3 bytes and two tags of 8 in the tape, so that entry 1, with 6 and two tags, stands at 35 to 56.
#[test]
fn each_altered_byte_of_an_entry_breaks_it_and_no_other(rt: HostRuntime) -> Result<(), Fail> {
    let (lower, upper) = (key(&rt, 0)?, key(&rt, 2)?);
    let mut pile = laid(empty_tape(rt.alloc(), 128)?.into_memory(), lower, upper);
    append_all(&rt, &mut pile, &[b"one", b"second", b""]);
    let mut memory = memory_of(pile);
    for at in 35..57usize {
        memory = breaks_at(&rt, memory, at, 1, [lower, upper]);
        memory = breaks_at(&rt, memory, at, 128, [lower, upper]);
    }
    reads_all(&rt, memory, lower, upper);
    Ok(())
}
