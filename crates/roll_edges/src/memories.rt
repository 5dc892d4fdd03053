// Memories made by chance.
use crate::common::put;
use crate::numbers::Numbers;
use std::alloc::{AllocError, Global};
use std::process::Abort;

// So many bytes, each by chance.
pub(crate) fn scattered(
    heap: Global,
    numbers: &mut Numbers,
    len: usize,
) -> Result<Vec<u8>, AllocError> {
    let mut memory = Vec::new(heap);
    for _ in 0..len {
        memory.push(numbers.below(256) as u8)?;
    }
    Ok(memory)
}

// Writes ends of entries from the end of a memory down: most of them rise, up to `last`, and one in eight is any number below 72.
fn put_ends(rt: &impl Abort, numbers: &mut Numbers, memory: &mut [u8], count: u32, last: u32) {
    let mut end = 16u32;
    let mut at = memory.len();
    for _ in 0..count {
        end = last.min(end.saturating_add(numbers.below(6)));
        at = at.saturating_sub(4);
        let any = numbers.below(72);
        let written = if numbers.below(8) == 0 { any } else { end };
        put(rt, memory, at, written);
    }
}

// A memory of 16 to 64 bytes by chance, with a header in order and ends that mostly are.
pub(crate) fn laid_out(
    rt: &(impl Abort + AllocGlobal),
    numbers: &mut Numbers,
) -> Result<Vec<u8>, AllocError> {
    let len = 16 + numbers.below(49);
    let count = numbers.below((len - 16) / 4 + 1);
    let mut memory = scattered(rt.alloc(), numbers, len as usize)?;
    put(rt, &mut memory, 4, count);
    put(rt, &mut memory, 8, 16);
    put(rt, &mut memory, 12, len);
    put_ends(rt, numbers, &mut memory, count, len - 4 * count);
    Ok(memory)
}

// Changes a byte of a memory that has one: where, and to what, is by chance.
pub(crate) fn change_a_byte(rt: &impl Abort, numbers: &mut Numbers, memory: &mut [u8]) {
    assert!(rt; !memory.is_empty() && memory.len() <= 64);
    let at = numbers.below(memory.len() as u32) as usize;
    memory[at] = numbers.below(256) as u8;
}
