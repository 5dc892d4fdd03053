ghost use Rattle.std.specs.Prelude.{◌≡◌, MatchResult};
ghost use Rattle.roll.specs.Roll.{count};
ghost use Rattle.tape.specs.Tape.{InOrder, tape, nothing};
ghost use Rattle.tape.specs.Judged.{check_answer};

use crate::judging::judge;
use tinyjambu::Fault;

// How many entries the tape on a memory has, or refusal 6 or 7: exactly what opening the memory finds.
pub fn check(memory: &[u8]) -> Result<u32, Fault>
    ensures answer { result ≡ check_answer memory.now }
    ensures finds { MatchResult result (λ n. InOrder memory.now × (count (tape memory.now) ≡ n)) (λ _. (InOrder memory.now → ⊥) × (tape memory.now ≡ nothing)) }
{
    Ok(judge(memory)?.count)
}
