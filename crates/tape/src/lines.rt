ghost use Rattle.std.specs.Prelude.{◌≡◌, IfOk, string_bytes};
ghost use Rattle.tape.specs.Listing.{roll_lines, listing};

use crate::checking::check;
use crate::tape::Tape;
use roll::Roll;
use std::alloc::{AllocError, Global};
use std::fmt::Write;

// The lines that list a roll: name, count and space, and then the number and the length of each entry.
fn roll_lines<R: Roll>(heap: Global, roll: &R) -> Result<String, AllocError>
    ensures { IfOk result (λ s. string_bytes s ≡ roll_lines (R.Roll.meaning roll.now)) }
{
    let name = roll.name();
    let count = roll.count();
    let space = roll.space();
    let mut lines = format!(in heap; "roll {name} entries {count} space {space}\n")?;
    for number in 0..count {
        let length = roll.length(number).unwrap();
        writeln!(lines, "{number} {length}")?;
    }
    Ok(lines)
}

// The lines that list the tape on a memory, or the line that says why it is refused.
pub fn listing(heap: Global, memory: Vec<u8>) -> Result<String, AllocError>
    ensures { IfOk result (λ s. string_bytes s ≡ listing memory.items) }
{
    match check(&memory) {
        Ok(_) => roll_lines(heap, &Tape::open(memory)),
        Err(fault) => {
            let number = u8::from(fault.refusal);
            format!(in heap; "refused {number}\n")
        },
    }
}
