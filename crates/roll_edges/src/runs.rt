// A refused append makes no run of any engine: it is refused before anything is sealed.
use crate::common::{append_all, empty_tape, key};
use crate::counting::Counting;
use floor::{Floor, Lay};
use roll::{Kind, Roll};
use std::process::Abort;
use std::test::Fail;
use tape::Tape;
use tinyjambu::{Refusal, WordEngine};

type Counted = Counting<WordEngine>;

// What is lifted of two floors: the tape, the lower engine and the upper one.
type Lifted = (Tape, Counted, Counted);

// Two engines that have made no run.
fn engines(rt: &impl Abort) -> Result<(Counted, Counted), Fail> {
    let lower = WordEngine::new(key(rt, 1)?);
    let upper = WordEngine::new(key(rt, 2)?);
    Ok((Counting::new(lower), Counting::new(upper)))
}

// Appends a text at the top of two floors on a tape, checks the answer, and lifts the floors again.
fn append_at_the_top(
    rt: &impl Abort,
    lifted: Lifted,
    text: &[u8],
    refusal: Option<Refusal>,
) -> Lifted {
    let (tape, lower, upper) = lifted;
    let entry = tape.count();
    let mut pile = Floor::lay(Floor::lay(tape, lower, Kind::Scene), upper, Kind::Scene);
    let answer = pile.append(text);
    assert_eq!(rt;
        answer,
        refusal.map_or(Ok(entry), |refusal| Err(refusal.at(2, entry)))
    );
    let (below, upper) = pile.lift();
    let (tape, lower) = below.lift();
    (tape, lower, upper)
}

// Checks that a text is refused on a tape under two floors, and that neither engine makes a run for it.
fn refused_without_a_run(
    rt: &impl Abort,
    tape: Tape,
    text: &[u8],
    refusal: Refusal,
) -> Result<(), Fail> {
    let (lower, upper) = engines(rt)?;
    let (_, lower, upper) = append_at_the_top(rt, (tape, lower, upper), text, Some(refusal));
    assert_eq!(rt; lower.runs(), 0);
    assert_eq!(rt; upper.runs(), 0);
    Ok(())
}

#[test]
fn a_text_of_the_bound_is_refused_without_a_run(rt: HostRuntime) -> Result<(), Fail> {
    let tape = empty_tape(rt.alloc(), 8192)?;
    refused_without_a_run(&rt, tape, &[0x5a; 4081], Refusal::EntryTooLong)
}

// A text of 5 bytes costs 5, two tags of 8 and 4 for where it ends; the tape has one less.
#[test]
fn a_text_that_nobody_can_pay_is_refused_without_a_run(rt: HostRuntime) -> Result<(), Fail> {
    let tape = empty_tape(rt.alloc(), 40)?;
    assert_eq!(rt; tape.space(), 24);
    refused_without_a_run(&rt, tape, b"12345", Refusal::NoSpace)
}

#[test]
fn a_text_for_a_full_tape_is_refused_without_a_run(rt: HostRuntime) -> Result<(), Fail> {
    let mut tape = empty_tape(rt.alloc(), 65536)?;
    for _ in 0..4095u32 {
        append_all(&rt, &mut tape, &[b""]);
    }
    refused_without_a_run(&rt, tape, b"", Refusal::RollFull)
}

#[test]
fn an_accepted_append_makes_runs_and_a_refused_one_behind_it_no_more(
    rt: HostRuntime,
) -> Result<(), Fail> {
    let (lower, upper) = engines(&rt)?;
    let lifted = (empty_tape(rt.alloc(), 40)?, lower, upper);
    let (tape, lower, upper) = append_at_the_top(&rt, lifted, b"1234", None);
    let (by_lower, by_upper) = (lower.runs(), upper.runs());
    assert!(rt; by_lower > 0 && by_upper > 0);
    let lifted = (tape, lower, upper);
    let (_, lower, upper) = append_at_the_top(&rt, lifted, b"", Some(Refusal::NoSpace));
    assert_eq!(rt; lower.runs(), by_lower);
    assert_eq!(rt; upper.runs(), by_upper);
    Ok(())
}
