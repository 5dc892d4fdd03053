// Entries of a tape that are shorter than a tag, or that nobody sealed, under floors.
use crate::common::{append_all, empty_tape, has_text, is_broken, key};
use floor::{Floor, Lay};
use roll::{Kind, Roll};
use std::process::Abort;
use std::test::Fail;
use tape::Tape;
use tinyjambu::{Refusal, WordEngine};

// Entries of 0 to 7 bytes by their numbers, then one of 8 and one of 11.
const ENTRIES: [&[u8]; 10] = [
    b"",
    b"1",
    b"12",
    b"123",
    b"1234",
    b"12345",
    b"123456",
    b"1234567",
    b"12345678",
    b"12345678901",
];

// A tape with these entries, which no floor sealed.
fn unsealed(rt: &(impl Abort + AllocGlobal)) -> Result<Tape, Fail> {
    let mut tape = empty_tape(rt.alloc(), 1024)?;
    append_all(rt, &mut tape, &ENTRIES);
    Ok(tape)
}

// Checks that each of these entries is broken at the lowest floor, with no length where it has at most the 8 bytes of a tag.
fn are_broken<R: Roll>(rt: &impl Abort, roll: &mut R, longest: usize) {
    for entry in 0..9u32 {
        is_broken(rt, roll, entry, 1, 0);
        assert_eq!(rt;
            roll.read(entry, &mut []),
            Err(Refusal::Broken.at(1, entry))
        );
    }
    is_broken(rt, roll, 9, 1, longest);
}

// Checks that a roll takes new entries behind these ten.
fn takes_more<R: Roll>(rt: &impl Abort, roll: &mut R) {
    assert_eq!(rt; roll.append(b"the eleventh"), Ok(10));
    assert_eq!(rt; roll.append(b""), Ok(11));
    assert_eq!(rt; roll.count(), 12);
    has_text(rt, roll, 10, b"the eleventh");
    has_text(rt, roll, 11, b"");
}

#[test]
fn entries_shorter_than_a_tag_are_broken_and_have_no_length(rt: HostRuntime) -> Result<(), Fail> {
    let one = key(&rt, 0)?;
    let mut floor = Floor::lay(unsealed(&rt)?, WordEngine::new(one), Kind::Scene);
    are_broken(&rt, &mut floor, 3);
    Ok(())
}

#[test]
fn a_floor_over_broken_entries_takes_new_ones(rt: HostRuntime) -> Result<(), Fail> {
    let one = key(&rt, 1)?;
    let mut floor = Floor::lay(unsealed(&rt)?, WordEngine::new(one), Kind::Scene);
    takes_more(&rt, &mut floor);
    are_broken(&rt, &mut floor, 3);
    Ok(())
}

#[test]
fn the_upper_of_two_floors_shows_them_broken_at_the_lower(rt: HostRuntime) -> Result<(), Fail> {
    let (one, two) = (key(&rt, 1)?, key(&rt, 2)?);
    let lower = Floor::lay(unsealed(&rt)?, WordEngine::new(one), Kind::Scene);
    let mut pile = Floor::lay(lower, WordEngine::new(two), Kind::Scene);
    takes_more(&rt, &mut pile);
    are_broken(&rt, &mut pile, 0);
    Ok(())
}

#[test]
fn an_entry_that_is_not_there_is_refused_at_the_top(rt: HostRuntime) -> Result<(), Fail> {
    let (one, two) = (key(&rt, 1)?, key(&rt, 2)?);
    let lower = Floor::lay(unsealed(&rt)?, WordEngine::new(one), Kind::Scene);
    let mut pile = Floor::lay(lower, WordEngine::new(two), Kind::Scene);
    for entry in [10, 4095, 4294967295u32] {
        let mut out = [0xaau8; 5];
        assert_eq!(rt; pile.length(entry), Err(Refusal::NoEntry.at(2, entry)));
        assert_eq!(rt;
            pile.read(entry, &mut out),
            Err(Refusal::NoEntry.at(2, entry))
        );
        assert!(rt; out == [0u8; 5]);
    }
    Ok(())
}
