// The tape of 32 bytes that docs/TAPE.md shows, byte by byte.
use roll::Roll;
use std::test::Fail;
use tape::{Tape, check, listing};
use tinyjambu::Refusal;

const BEFORE: [u8; 32] = [
    0x07, 0, 0, 0, 0x01, 0, 0, 0, 0x10, 0, 0, 0, 0x20, 0, 0, 0, 0x68, 0x69, 0, 0, 0, 0, 0, 0, 0, 0,
    0, 0, 0x12, 0, 0, 0,
];

const AFTER: [u8; 32] = [
    0x07, 0, 0, 0, 0x02, 0, 0, 0, 0x10, 0, 0, 0, 0x20, 0, 0, 0, 0x68, 0x69, 0x6f, 0x6b, 0x21, 0, 0,
    0, 0x15, 0, 0, 0, 0x12, 0, 0, 0,
];

#[test]
fn the_tape_of_the_example_is_listed(rt: HostRuntime) -> Result<(), Fail> {
    assert_eq!(rt; check(&BEFORE), Ok(1));
    let lines = listing(rt.alloc(), BEFORE.to_vec(rt.alloc())?)?;
    assert!(rt; lines.as_str() == "roll 7 entries 1 space 10\n0 2\n");
    Ok(())
}

#[test]
fn the_tape_of_the_example_has_its_entry(rt: HostRuntime) -> Result<(), Fail> {
    let mut tape = Tape::open(BEFORE.to_vec(rt.alloc())?);
    assert_eq!(rt; tape.name(), 7);
    assert_eq!(rt; tape.floor(), 0);
    assert_eq!(rt; tape.bound(), 4097);
    assert_eq!(rt; tape.count(), 1);
    assert_eq!(rt; tape.space(), 10);
    assert_eq!(rt; tape.length(0), Ok(2));
    let mut out = [0xaau8; 3];
    assert_eq!(rt; tape.read(0, &mut out), Ok(2));
    assert!(rt; out == [0x68, 0x69, 0xaa]);
    Ok(())
}

#[test]
fn an_append_to_the_example_writes_the_bytes_shown(rt: HostRuntime) -> Result<(), Fail> {
    let mut tape = Tape::open(BEFORE.to_vec(rt.alloc())?);
    assert_eq!(rt; tape.append(b"ok!"), Ok(1));
    assert_eq!(rt; tape.space(), 3);
    assert_eq!(rt; tape.append(&[]), Err(Refusal::NoSpace.at(0, 2)));
    assert!(rt; tape.into_memory().as_slice() == AFTER.as_slice());
    assert_eq!(rt; check(&AFTER), Ok(2));
    Ok(())
}

#[test]
fn the_example_has_room_for_six_bytes(rt: HostRuntime) -> Result<(), Fail> {
    let mut tape = Tape::open(BEFORE.to_vec(rt.alloc())?);
    assert_eq!(rt; tape.append(b"seven b"), Err(Refusal::NoSpace.at(0, 1)));
    assert_eq!(rt; tape.append(b"six by"), Ok(1));
    assert_eq!(rt; tape.space(), 0);
    Ok(())
}
