// Floors that are lifted and laid again read by key, order and kind.
use crate::common::{append_all, empty_tape, has_text, is_broken, key};
use floor::{Floor, Lay};
use roll::Kind;
use std::process::Abort;
use std::test::Fail;
use tape::Tape;
use tinyjambu::{Key, WordEngine};

// A key and a kind, of which a floor is made.
#[derive(Clone, Copy)]
struct Plan {
    key: Key,
    kind: Kind,
}

// A plan by the number of its key.
fn planned(rt: &impl Abort, number: usize, kind: Kind) -> Result<Plan, Fail> {
    let key = key(rt, number)?;
    Ok(Plan { key, kind })
}

// Lays two floors on a tape.
fn laid(tape: Tape, lower: Plan, upper: Plan) -> Floor<Floor<Tape, WordEngine>, WordEngine> {
    let below = Floor::lay(tape, WordEngine::new(lower.key), lower.kind);
    Floor::lay(below, WordEngine::new(upper.key), upper.kind)
}

// A tape with two texts sealed by two floors, which are lifted again.
fn sealed(rt: &(impl Abort + AllocGlobal), lower: Plan, upper: Plan) -> Result<Tape, Fail> {
    let mut pile = laid(empty_tape(rt.alloc(), 256)?, lower, upper);
    append_all(rt, &mut pile, &[b"one", b""]);
    let (below, _) = pile.lift();
    let (tape, _) = below.lift();
    Ok(tape)
}

// Checks that neither text reads under two floors, each broken at the one that is given. Answers the tape.
fn reads_nothing(rt: &impl Abort, tape: Tape, lower: Plan, upper: Plan, floor: u32) -> Tape {
    let mut pile = laid(tape, lower, upper);
    is_broken(rt, &mut pile, 0, floor, 3);
    is_broken(rt, &mut pile, 1, floor, 0);
    let (below, _) = pile.lift();
    let (tape, _) = below.lift();
    tape
}

// Checks that both texts read under two floors.
fn reads_both(rt: &impl Abort, tape: Tape, lower: Plan, upper: Plan) {
    let mut pile = laid(tape, lower, upper);
    has_text(rt, &mut pile, 0, b"one");
    has_text(rt, &mut pile, 1, b"");
}

#[test]
fn floors_laid_again_with_the_same_keys_read_the_old_entries(rt: HostRuntime) -> Result<(), Fail> {
    let (lower, upper) = (
        planned(&rt, 1, Kind::Scene)?,
        planned(&rt, 2, Kind::Preview)?,
    );
    let tape = sealed(&rt, lower, upper)?;
    reads_both(&rt, tape, lower, upper);
    Ok(())
}

#[test]
fn keys_in_the_other_order_read_nothing(rt: HostRuntime) -> Result<(), Fail> {
    let (lower, upper) = (planned(&rt, 0, Kind::Scene)?, planned(&rt, 3, Kind::Scene)?);
    let tape = sealed(&rt, lower, upper)?;
    let tape = reads_nothing(&rt, tape, upper, lower, 1);
    reads_both(&rt, tape, lower, upper);
    Ok(())
}

#[test]
fn another_key_reads_nothing_at_its_floor(rt: HostRuntime) -> Result<(), Fail> {
    let (lower, upper) = (planned(&rt, 0, Kind::Scene)?, planned(&rt, 3, Kind::Scene)?);
    let other = planned(&rt, 6, Kind::Scene)?;
    let tape = sealed(&rt, lower, upper)?;
    let tape = reads_nothing(&rt, tape, other, upper, 1);
    let tape = reads_nothing(&rt, tape, lower, other, 2);
    reads_both(&rt, tape, lower, upper);
    Ok(())
}

#[test]
fn another_kind_reads_nothing_at_its_floor(rt: HostRuntime) -> Result<(), Fail> {
    let (lower, upper) = (planned(&rt, 1, Kind::Scene)?, planned(&rt, 2, Kind::Scene)?);
    let tape = sealed(&rt, lower, upper)?;
    let tape = reads_nothing(&rt, tape, planned(&rt, 1, Kind::Preview)?, upper, 1);
    let tape = reads_nothing(&rt, tape, planned(&rt, 1, Kind::Lock)?, upper, 1);
    let tape = reads_nothing(&rt, tape, lower, planned(&rt, 2, Kind::Preview)?, 2);
    let tape = reads_nothing(&rt, tape, lower, planned(&rt, 2, Kind::Lock)?, 2);
    reads_both(&rt, tape, lower, upper);
    Ok(())
}
