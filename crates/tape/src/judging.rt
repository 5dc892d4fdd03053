ghost use Rattle.std.specs.Prelude.{◌≡◌, ◌+◌, ◌*◌, ◌≤◌, ◌&&◌, length, nat_le};
ghost use Rattle.tape.specs.Tape.{word, begin_of, end_of, header_ordered};
ghost use Rattle.tape.specs.Judged.{tape_length_answer, judgement};

use crate::extent::Extent;
use byteorder::{ByteOrder, LittleEndian};
use roll::{LONGEST, MOST};
use tinyjambu::Refusal;

// The length of the header, behind which the first entry begins.
pub(crate) const HEADER: usize = 16;

// The longest memory of a tape.
pub const LONGEST_MEMORY: usize = 65536;

// The number in the four bytes from `at` on, the least byte first. (The cipher has the like for itself: one for both would be
// public, and no public function asks anything of its caller.)
pub(crate) fn word(memory: &[u8], at: usize) -> u32
    requires { at + 4 ≤ length memory.now }
    ensures { result ≡ word at memory.now }
{
    LittleEndian::read_u32(&memory[at..])
}

// Where an entry ends.
pub(crate) fn end_of(memory: &[u8], entry: u32) -> usize
    requires { 4 * (entry + 1) ≤ length memory.now }
    ensures { result ≡ end_of memory.now entry }
{
    word(memory, memory.len() - 4 * (entry as usize + 1)) as usize
}

// Where an entry begins.
pub(crate) fn begin_of(memory: &[u8], entry: u32) -> usize
    requires { 4 * entry ≤ length memory.now }
    ensures { result ≡ begin_of memory.now entry }
{
    if entry == 0 {
        HEADER
    } else {
        end_of(memory, entry - 1)
    }
}

// Refuses a length that is not that of a tape.
pub(crate) fn check_tape_length(len: usize) -> Result<(), Refusal>
    ensures { result ≡ tape_length_answer len }
{
    if !(HEADER..=LONGEST_MEMORY).contains(&len) {
        return Err(Refusal::TapeLength);
    }
    Ok(())
}

// Whether the header of a memory that is long enough is in order. (A predicate, as its definition and the next one's are: `judge`
// alone makes refusals of them.)
fn header_ordered(memory: &[u8]) -> bool
    requires { HEADER ≤ length memory.now }
    ensures { result ≡ header_ordered memory.now }
{
    let len = memory.len();
    let count = word(memory, 4);
    word(memory, 12) as usize == len
        && word(memory, 8) as usize == HEADER
        && count <= MOST
        && HEADER + 4 * count as usize <= len
}

// Whether an entry may begin and end so.
fn entry_ordered(begin: usize, end: usize) -> bool
    ensures { result ≡ (nat_le begin end && nat_le end (begin + LONGEST)) }
{
    begin <= end && end - begin <= LONGEST
}

// Judges a memory: its extent if it is in order, or else whether its length or what it holds is amiss.
pub(crate) fn judge(memory: &[u8]) -> Result<Extent, Refusal>
    ensures { result ≡ judgement memory.now }
{
    let len = memory.len();
    check_tape_length(len)?;
    if !header_ordered(memory) {
        return Err(Refusal::TapeDisorder);
    }
    let count = word(memory, 4);
    let mut end = HEADER;
    for entry in 0..count {
        let next = end_of(memory, entry);
        if !entry_ordered(end, next) {
            return Err(Refusal::TapeDisorder);
        }
        end = next;
    }
    if end > len - 4 * count as usize {
        return Err(Refusal::TapeDisorder);
    }
    Ok(Extent { count, end })
}
