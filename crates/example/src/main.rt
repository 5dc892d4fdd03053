#![tactic(auto)]

ghost use Rattle.std.specs.Prelude.{◌≡◌, [], ◌∷◌, Some};
ghost use Rattle.engine.specs.KeyBytes.{key_bytes};
ghost use Rattle.roll.specs.Roll.{append_answer, image_after};
ghost use Rattle.roll.specs.Life.{image_by};
ghost use Rattle.tape.specs.Tape.{tape, tape_put};
ghost use Rattle.floor.specs.Laid.{layer};

use floor::{Floor, Lay};
use roll::{Kind, Roll};
use tape::{Tape, blank};
use tinyjambu::{Fault, Key, WordEngine};

// Appends a text to a roll, and reads it back into `out`.
fn append_and_read<R: Roll>(roll: &mut R, text: &[u8], out: &mut [u8]) -> Result<usize, Fault>
    ensures bytes { R.Roll.image roll.new ≡ image_after (append_answer (R.Roll.meaning roll.old) text.now) (R.Roll.put roll.old text.now) (R.Roll.image roll.old) }
{
    let entry = roll.append(text)?;
    roll.read(entry, out)
}

// Lays the distributor's floor and then the studio's on a tape, appends a text, reads it back into `out`, and lifts both
// floors again. The memory is then the tape with the text sealed by the studio and then by the distributor.
fn keep(
    memory: Vec<u8>,
    studio: Key,
    distributor: Key,
    text: &[u8],
    out: &mut [u8],
) -> (Vec<u8>, Result<usize, Fault>)
    ensures bytes { result.0.items ≡ image_by tape_put (layer (key_bytes studio) Kind.Scene ∷ layer (key_bytes distributor) Kind.Scene ∷ []) (tape memory.items) memory.items (Some text.now) }
{
    let lower = Floor::lay(
        Tape::open(memory),
        WordEngine::new(distributor),
        Kind::Scene,
    );
    let mut pile = Floor::lay(lower, WordEngine::new(studio), Kind::Scene);
    let answer = append_and_read(&mut pile, text, out);
    let (lower, _) = pile.lift();
    let (tape, _) = lower.lift();
    (tape.into_memory(), answer)
}

fn main(rt: HostRuntime) -> anyhow::Result<()> {
    let mut memory = vec![in rt.alloc(); 0u8; 128]?;
    blank(&mut memory, 7)?;
    let studio = Key::try_from(b"a studio's key..".as_slice())?;
    let distributor = Key::try_from(b"a distributor's key of 32 bytes.".as_slice())?;
    let text = b"revision 1 of the scene".as_slice();
    let mut out = [0u8; 64];
    let (memory, answer) = keep(memory, studio, distributor, text, &mut out);
    let len = answer?;
    let total = memory.len();
    println!(rt; "{len} bytes read back from a tape of {total}")?;
    Ok(())
}
