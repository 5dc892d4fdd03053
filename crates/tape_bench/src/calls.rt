// The calls that are timed.
use roll::Roll;
use std::ops::Range;
use tape::Tape;
use tinyjambu::Fault;

// What entries are cut from: they have 0 to 11 bytes.
const TEXT: [u8; 11] = *b"revision 12";

// Appends entries to a tape until it has so many.
pub(crate) fn append_up_to(tape: &mut Tape, count: u32) -> Result<(), Fault> {
    for entry in tape.count()..count {
        tape.append(&TEXT[0..entry as usize % 12])?;
    }
    Ok(())
}

// Reads entries, and answers the sum of their lengths and of what stands last in the buffer, so that no read is for nothing.
pub(crate) fn read_entries(tape: &mut Tape, entries: Range<u32>) -> Result<u64, Fault> {
    let mut sum = 0u64;
    let mut out = [0u8; 11];
    for entry in entries {
        let len = tape.read(entry, &mut out)?;
        sum = sum.wrapping_add(len as u64 + u64::from(out[10]));
    }
    Ok(sum)
}
