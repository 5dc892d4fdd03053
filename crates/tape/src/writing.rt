ghost use Rattle.std.specs.Prelude.{◌≡◌, ◌+◌, ◌*◌, ◌≤◌, length};
ghost use Rattle.engine.specs.Bytes.{bytes};
ghost use Rattle.roll.specs.Memory.{written};
ghost use Rattle.tape.specs.Tape.{entry_put};

use crate::copying::copy_entry;
use crate::extent::Extent;
use crate::judging::LONGEST_MEMORY;
use byteorder::{ByteOrder, LittleEndian};

// Writes a number into the four bytes from `at` on, the least byte first. (The cipher has the like for itself: one for both would
// be public, and no public function asks anything of its caller.)
pub(crate) fn write_word(memory: &mut [u8], at: usize, number: u32)
    requires { at + 4 ≤ length memory.old }
    ensures { memory.new ≡ written at (bytes 4 number) memory.old }
{
    LittleEndian::write_u32(&mut memory[at..at + 4], number);
}

// Writes an entry behind the last one, then where it ends, then how many entries there are. Answers the extent then.
pub(crate) fn write_entry(memory: &mut [u8], extent: Extent, text: &[u8]) -> Extent
    requires memory { length memory.old ≤ LONGEST_MEMORY }
    requires entry { extent.end + length text.now + 4 * (extent.count + 1) ≤ length memory.old }
    requires header { 8 ≤ extent.end }
    ensures after { memory.new ≡ entry_put extent.count extent.end memory.old text.now }
    ensures extent { result ≡ record { count = extent.count + 1; end = extent.end + length text.now } }
{
    let count = extent.count + 1;
    let begin = extent.end;
    let end = begin + text.len();
    let at = memory.len() - 4 * count as usize;
    copy_entry(&mut memory[begin..end], text);
    write_word(memory, at, end as u32);
    write_word(memory, 4, count);
    Extent { count, end }
}
