// The rules of docs/TAPE.md for a memory in order, and the lines of its lister, written once more for these tests alone.
use std::alloc::{AllocError, Global};
use std::fmt::Write;
use tinyjambu::Refusal;

// What the rules find of a memory in order.
#[derive(Clone, Copy)]
pub struct InOrder {
    pub name: u32,
    pub count: u32,
    pub space: i64,
}

// The number in the four bytes from a place on, if the memory has them.
fn number(memory: &[u8], at: usize) -> Option<u32> {
    let four = memory.get(at..)?.get(0..4)?;
    let bytes = <[u8; 4]>::try_from(four).ok()?;
    Some(u32::from_le_bytes(bytes))
}

// Where the first so many entries end: at 16 without entries.
fn end_of_first(memory: &[u8], count: u32) -> Option<u32> {
    if count == 0 {
        return Some(16);
    }
    number(memory, memory.len().checked_sub(4 * count as usize)?)
}

// How long an entry is, if it does not end before it begins, and has at most 4,096 bytes.
fn length(memory: &[u8], entry: u32) -> Option<i64> {
    let begin = end_of_first(memory, entry)?;
    let end = end_of_first(memory, entry.checked_add(1)?)?;
    let length = i64::from(end) - i64::from(begin);
    (0..=4096).contains(&length).then_some(length)
}

// How many entries the header says there are, if it is in order.
fn headed(memory: &[u8]) -> Option<u32> {
    let long = i64::try_from(memory.len()).ok()?;
    let count = number(memory, 4)?;
    let room = count <= 4095 && 16 + 4 * i64::from(count) <= long;
    let right = i64::from(number(memory, 12)?) == long && number(memory, 8)? == 16;
    (room && right).then_some(count)
}

// What is found of a memory whose length is that of a tape, if it is in order.
fn ordered(memory: &[u8]) -> Option<InOrder> {
    let count = headed(memory)?;
    for entry in 0..count {
        length(memory, entry)?;
    }
    let long = i64::try_from(memory.len()).ok()?;
    let end = i64::from(end_of_first(memory, count)?);
    let name = number(memory, 0)?;
    let space = long - 4 * i64::from(count) - end;
    (space >= 0).then_some(InOrder { name, count, space })
}

// What is found of a memory, or why it is refused.
pub(crate) fn found(memory: &[u8]) -> Result<InOrder, Refusal> {
    if memory.len() < 16 || memory.len() > 65536 {
        return Err(Refusal::TapeLength);
    }
    ordered(memory).ok_or(Refusal::TapeDisorder)
}

// The lines that the lister prints of a memory.
pub(crate) fn lines(heap: Global, memory: &[u8]) -> Result<String, AllocError> {
    match found(memory) {
        Ok(InOrder { name, count, space }) => {
            let mut lines = format!(in heap; "roll {name} entries {count} space {space}\n")?;
            for entry in 0..count {
                let length = length(memory, entry).unwrap_or(-1);
                writeln!(lines, "{entry} {length}")?;
            }
            Ok(lines)
        },
        Err(Refusal::TapeLength) => format!(in heap; "refused 6\n"),
        Err(_) => format!(in heap; "refused 7\n"),
    }
}
