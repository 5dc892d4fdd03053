ghost use Rattle.std.specs.Prelude.{◌≡◌, length, OnOk};
ghost use Rattle.tape.specs.Tape.{InOrder, tape};
ghost use Rattle.tape.specs.Judged.{blank_answer, blank_after, blank_roll};

use crate::judging::{HEADER, check_tape_length};
use crate::writing::write_word;
use tinyjambu::Fault;

// Makes a memory an empty tape under a name, or refuses with 6. It writes the header and no other byte.
pub fn blank(memory: &mut [u8], name: u32) -> Result<(), Fault>
    ensures answer { result ≡ blank_answer (length memory.old) }
    ensures after { memory.new ≡ blank_after name memory.old }
    ensures empty { OnOk result (InOrder memory.new × (tape memory.new ≡ blank_roll name (length memory.old))) }
{
    let len = memory.len();
    check_tape_length(len)?;
    write_word(memory, 0, name);
    write_word(memory, 4, 0);
    write_word(memory, 8, HEADER as u32);
    write_word(memory, 12, len as u32);
    Ok(())
}
