// Piles of two and of eight floors, over a tape and over a pocket, with keys of all three sizes and both engines.
use crate::common::{empty_tape, has_text, key};
use floor::{Floor, Lay};
use pocket::Pocket;
use roll::{Kind, Roll};
use std::process::Abort;
use std::test::Fail;
use tinyjambu::{BitEngine, Refusal, WordEngine};

// Lays two floors on a roll, the lower one under the key of that number, the upper one under the next.
fn two<R: Roll + Drop>(
    rt: &impl Abort,
    below: R,
    number: usize,
) -> Result<Floor<Floor<R, WordEngine>, BitEngine>, Fail> {
    assert!(rt; number < 7);
    let lower = Floor::lay(below, WordEngine::new(key(rt, number)?), Kind::Scene);
    let engine = BitEngine::new(key(rt, number + 1)?);
    Ok(Floor::lay(lower, engine, Kind::Preview))
}

// The text that an entry is to have, and behind it more of the same byte.
fn text_of(entry: u32) -> [u8; 4097] {
    [(entry % 251) as u8; 4097]
}

// Checks what an empty pile answers to the questions that tell its floor from another.
fn stands_at<R: Roll>(rt: &impl Abort, pile: &R, floor: u32, bound: u32) {
    assert_eq!(rt; pile.name(), 7);
    assert_eq!(rt; pile.floor(), floor);
    assert_eq!(rt; pile.bound(), bound);
    assert_eq!(rt; pile.count(), 0);
}

// Checks that a pile takes texts of these lengths, and that each reads back when all are taken.
fn takes<R: Roll>(rt: &impl Abort, pile: &mut R, lengths: [(u32, usize); 5]) {
    for (entry, len) in lengths {
        assert!(rt; len <= 4096);
        assert_eq!(rt; pile.append(&text_of(entry)[0..len]), Ok(entry));
        assert_eq!(rt; pile.count(), entry.saturating_add(1));
    }
    for (entry, len) in lengths {
        assert!(rt; len <= 4096);
        has_text(rt, pile, entry, &text_of(entry)[0..len]);
    }
}

// Checks an empty pile of so many floors, whose bound is given.
fn keeps<R: Roll + Drop>(rt: &impl Abort, mut pile: R, floor: u32, bound: u32) {
    stands_at(rt, &pile, floor, bound);
    assert!(rt; 0 < bound && bound <= 4097);
    let longest = bound as usize - 1;
    takes(
        rt,
        &mut pile,
        [(0, 0), (1, 1), (2, longest), (3, 24), (4, 0)],
    );
    assert_eq!(rt;
        pile.append(&text_of(5)[0..longest + 1]),
        Err(Refusal::EntryTooLong.at(floor, 5))
    );
    assert_eq!(rt; pile.count(), 5);
}

#[test]
fn two_floors_on_a_tape_keep_texts_below_the_bound(rt: HostRuntime) -> Result<(), Fail> {
    let pile = two(&rt, empty_tape(rt.alloc(), 8192)?, 0)?;
    keeps(&rt, pile, 2, 4081);
    Ok(())
}

#[test]
fn two_floors_on_a_pocket_keep_texts_below_the_bound(rt: HostRuntime) -> Result<(), Fail> {
    let pile = two(&rt, Pocket::new(7), 1)?;
    keeps(&rt, pile, 2, 497);
    Ok(())
}

#[test]
fn eight_floors_on_a_tape_keep_texts_below_the_bound(rt: HostRuntime) -> Result<(), Fail> {
    let four = two(&rt, two(&rt, empty_tape(rt.alloc(), 8192)?, 0)?, 2)?;
    let pile = two(&rt, two(&rt, four, 4)?, 6)?;
    keeps(&rt, pile, 8, 4033);
    Ok(())
}

#[test]
fn eight_floors_on_a_pocket_keep_texts_below_the_bound(rt: HostRuntime) -> Result<(), Fail> {
    let four = two(&rt, two(&rt, Pocket::new(7), 0)?, 2)?;
    let pile = two(&rt, two(&rt, four, 4)?, 6)?;
    keeps(&rt, pile, 8, 449);
    Ok(())
}
