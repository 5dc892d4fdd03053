ghost use Rattle.std.specs.Prelude.{◌≡◌, ◌+◌, ◌*◌, ◌≤◌, ◌++◌, length, vec_len, vec_capacity, IsOk, OnOk, OnErr};
ghost use Rattle.roll.specs.Roll.{entry, read_answer};
ghost use Rattle.roll.specs.Life.{answer, appends, image_after_all};
ghost use Rattle.roll.specs.Changes.{Unchanged, Took};
ghost use Rattle.roll.specs.Work.{heard, all_heard, reads, told, text_at, Worked};

use crate::answer::Answer;
use crate::call::Call;
use crate::limits::LONGEST;
use crate::roll::Roll;
use std::alloc::AllocError;
use tinyjambu::Fault;

// Reads entry `number`, and puts its text at the end of `texts`, which has room for it.
fn read_text<R: Roll>(roll: &mut R, number: u32, texts: &mut Vec<u8>) -> Result<usize, Fault>
    requires { vec_len texts.old + LONGEST ≤ vec_capacity texts.old }
    ensures result { result ≡ read_answer (R.Roll.meaning roll.old) number LONGEST }
    ensures told { texts.new.items ≡ texts.old.items ++ text_at (entry (R.Roll.meaning roll.old) number) }
    ensures len { vec_len texts.new ≤ vec_len texts.old + LONGEST }
    ensures room { vec_capacity texts.old ≤ vec_capacity texts.new }
    ensures same { Unchanged R.Roll roll.old roll.new }
{
    let begin = texts.len();
    texts.resize(begin + LONGEST, 0).unwrap();
    let answer = roll.read(number, &mut texts[begin..]);
    texts.truncate(begin + answer.unwrap_or(0));
    answer
}

// Works one call, and puts the text that it reads at the end of `texts`, which has room for it.
fn one<R: Roll>(roll: &mut R, call: &Call<'_>, texts: &mut Vec<u8>) -> Answer
    requires { vec_len texts.old + LONGEST ≤ vec_capacity texts.old }
    ensures result { result ≡ answer (R.Roll.meaning roll.old) (heard call.now) }
    ensures told { texts.new.items ≡ texts.old.items ++ told (R.Roll.meaning roll.old) (reads (heard call.now)) }
    ensures len { vec_len texts.new ≤ vec_len texts.old + LONGEST }
    ensures room { vec_capacity texts.old ≤ vec_capacity texts.new }
    ensures took { Took R.Roll (appends (heard call.now)) roll.old roll.new }
{
    match call {
        Call::Append(text) => Answer::Appended(roll.append(text)),
        Call::Read(number) => Answer::Read(read_text(roll, *number, texts)),
        Call::Length(number) => Answer::Length(roll.length(*number)),
        Call::Name => Answer::Number(roll.name()),
        Call::Floor => Answer::Number(roll.floor()),
        Call::Bound => Answer::Number(roll.bound()),
        Call::Space => Answer::Number(roll.space()),
        Call::Count => Answer::Number(roll.count()),
        Call::Charge(n) => Answer::Number(roll.charge(*n)),
    }
}

// Works each call in turn: `answers` are then theirs, and `texts` what they read, one text after another. It reserves the
// memory for both first, so that want of memory refuses before anything has changed; the caller lends the two, since where it
// keeps memory ready nothing refuses.
pub fn work<R: Roll>(
    roll: &mut R,
    calls: &[Call<'_>],
    answers: &mut Vec<Answer>,
    texts: &mut Vec<u8>,
) -> Result<(), AllocError>
    ensures worked { OnOk result (Worked (R.Roll.layers roll.old) (R.Roll.bottom roll.old) (R.Roll.bottom roll.new) (R.Roll.meaning roll.new) (all_heard calls.now) answers.new.items texts.new.items) }
    ensures unchanged { OnErr result ((roll.new ≡ roll.old) × (answers.new.items ≡ answers.old.items) × (texts.new.items ≡ texts.old.items)) }
    ensures floors { R.Roll.layers roll.new ≡ R.Roll.layers roll.old }
    ensures bytes { OnOk result (R.Roll.image roll.new ≡ image_after_all R.Roll.writes (R.Roll.layers roll.old) (R.Roll.bottom roll.old) (R.Roll.image roll.old) (all_heard calls.now)) }
    ensures room { vec_len answers.old + length calls.now ≤ vec_capacity answers.old → vec_len texts.old + LONGEST * length calls.now ≤ vec_capacity texts.old → IsOk result }
{
    let room = calls.len().checked_mul(LONGEST).ok_or(AllocError)?;
    answers.reserve(calls.len())?;
    texts.reserve(room)?;
    answers.clear();
    texts.clear();
    for call in calls {
        let answer = one(roll, call, texts);
        answers.push_reserved(answer);
    }
    Ok(())
}
