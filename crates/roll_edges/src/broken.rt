// At which floor an entry broke.
use crate::common::{append_all, empty_tape, has_text, is_broken, key};
use floor::{Floor, Lay};
use roll::{Kind, Roll};
use std::test::Fail;
use tinyjambu::{Refusal, WordEngine};

// Twenty bytes that no floor sealed.
const SCRATCH: &[u8] = b"bytes that are no se";

#[test]
fn under_three_floors_an_entry_is_broken_at_the_one_that_cannot_open_it(
    rt: HostRuntime,
) -> Result<(), Fail> {
    let (one, two, three) = (key(&rt, 0)?, key(&rt, 1)?, key(&rt, 2)?);
    let tape = empty_tape(rt.alloc(), 256)?;
    let mut first = Floor::lay(tape, WordEngine::new(one), Kind::Scene);
    append_all(&rt, &mut first, &[SCRATCH]);
    let mut second = Floor::lay(first, WordEngine::new(two), Kind::Scene);
    is_broken(&rt, &mut second, 0, 2, 12);
    append_all(&rt, &mut second, &[SCRATCH]);
    let mut third = Floor::lay(second, WordEngine::new(three), Kind::Scene);
    append_all(&rt, &mut third, &[SCRATCH]);
    is_broken(&rt, &mut third, 0, 2, 4);
    is_broken(&rt, &mut third, 1, 3, 12);
    has_text(&rt, &mut third, 2, SCRATCH);
    let (mut second, _) = third.lift();
    is_broken(&rt, &mut second, 0, 2, 12);
    has_text(&rt, &mut second, 1, SCRATCH);
    let (mut first, _) = second.lift();
    has_text(&rt, &mut first, 0, SCRATCH);
    Ok(())
}

#[test]
fn bytes_that_nobody_sealed_are_broken_at_the_lowest_floor(rt: HostRuntime) -> Result<(), Fail> {
    let (one, two) = (key(&rt, 0)?, key(&rt, 1)?);
    let mut tape = empty_tape(rt.alloc(), 256)?;
    append_all(&rt, &mut tape, &[SCRATCH]);
    let lower = Floor::lay(tape, WordEngine::new(one), Kind::Scene);
    let mut pile = Floor::lay(lower, WordEngine::new(two), Kind::Scene);
    is_broken(&rt, &mut pile, 0, 1, 4);
    Ok(())
}

#[test]
fn a_broken_entry_wants_its_room_before_it_is_broken(rt: HostRuntime) -> Result<(), Fail> {
    let one = key(&rt, 0)?;
    let mut tape = empty_tape(rt.alloc(), 256)?;
    append_all(&rt, &mut tape, &[SCRATCH]);
    let mut floor = Floor::lay(tape, WordEngine::new(one), Kind::Scene);
    let mut short = [0xaau8; 11];
    assert_eq!(rt;
        floor.read(0, &mut short),
        Err(Refusal::OutTooShort.at(1, 0))
    );
    assert!(rt; short == [0u8; 11]);
    let mut enough = [0xaau8; 12];
    assert_eq!(rt; floor.read(0, &mut enough), Err(Refusal::Broken.at(1, 0)));
    assert!(rt; enough == [0u8; 12]);
    Ok(())
}
