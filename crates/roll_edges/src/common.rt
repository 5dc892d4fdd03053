use roll::Roll;
use std::alloc::Global;
use std::process::Abort;
use std::test::Fail;
use tape::{Tape, blank};
use tinyjambu::{Key, Refusal};

// The longest text of an entry, and one that is a byte longer.
pub const LONGEST: [u8; 4096] = [0x5a; 4096];

pub const OVER: [u8; 4097] = [0x5a; 4097];

// Bytes to take keys from.
const KEYS: [u8; 40] = *b"0123456789abcdefghijklmnopqrstuvwxyz+-*/";

// A key by its number: 0, 3 and 6 have 16 bytes, 1, 4 and 7 have 24, and 2 and 5 have 32.
pub(crate) fn key(rt: &impl Abort, number: usize) -> Result<Key, Fail> {
    assert!(rt; number < 8);
    let len = 16 + 8 * (number % 3);
    Ok(Key::try_from(&KEYS[number..number + len])?)
}

// An empty tape of so many bytes.
pub(crate) fn empty_tape(heap: Global, len: usize) -> Result<Tape, Fail> {
    let mut memory = vec![in heap; 0u8; len]?;
    blank(&mut memory, 7)?;
    Ok(Tape::open(memory))
}

// Checks that an entry has a text, and that a read of it leaves what is behind the text in the buffer.
pub(crate) fn has_text<R: Roll>(rt: &impl Abort, roll: &mut R, entry: u32, text: &[u8]) {
    let len = text.len();
    assert!(rt; len <= 4096);
    let mut out = [0xaau8; 4097];
    assert_eq!(rt; roll.length(entry), Ok(len));
    assert_eq!(rt; roll.read(entry, &mut out), Ok(len));
    assert!(rt; &out[0..len] == text);
    assert!(rt; out[len..].iter().all(|&byte| byte == 0xaa));
}

// Appends texts to a roll, which takes them all.
pub(crate) fn append_all<R: Roll>(rt: &impl Abort, roll: &mut R, texts: &[&[u8]]) {
    for text in texts {
        assert!(rt; roll.append(text).is_ok());
    }
}

// Checks that an entry is broken at a floor and has this length, and that a read of it leaves only zeros.
pub(crate) fn is_broken<R: Roll>(
    rt: &impl Abort,
    roll: &mut R,
    entry: u32,
    floor: u32,
    len: usize,
) {
    let mut out = [0xaau8; 4097];
    assert_eq!(rt; roll.length(entry), Ok(len));
    assert_eq!(rt;
        roll.read(entry, &mut out),
        Err(Refusal::Broken.at(floor, entry))
    );
    assert!(rt; out.iter().all(|&byte| byte == 0));
}

// Writes a number into the four bytes from `at` on, the least byte first.
pub(crate) fn put(rt: &impl Abort, memory: &mut [u8], at: usize, number: u32) {
    assert!(rt; memory.len() >= 4 && at <= memory.len() - 4);
    memory[at..at + 4].copy_from_slice(&number.to_le_bytes());
}
