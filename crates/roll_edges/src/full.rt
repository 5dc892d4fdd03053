use crate::common::{OVER, empty_tape};
use roll::Roll;
use std::process::Abort;
use std::test::Fail;
use tape::Tape;
use tinyjambu::Refusal;

// A tape of so many bytes, with 4,095 empty entries.
fn full_tape(rt: &(impl Abort + AllocGlobal), len: usize) -> Result<Tape, Fail> {
    let mut tape = empty_tape(rt.alloc(), len)?;
    for entry in 0..4095u32 {
        assert_eq!(rt; tape.append(&[]), Ok(entry));
    }
    assert_eq!(rt; tape.count(), 4095);
    Ok(tape)
}

#[test]
fn a_tape_takes_4095_entries(rt: HostRuntime) -> Result<(), Fail> {
    let mut tape = full_tape(&rt, 65536)?;
    assert_eq!(rt; tape.space(), 49140);
    assert_eq!(rt; tape.append(&[]), Err(Refusal::RollFull.at(0, 4095)));
    assert_eq!(rt; tape.space(), 49140);
    assert_eq!(rt; tape.count(), 4095);
    Ok(())
}

#[test]
fn a_full_tape_refuses_the_length_before_the_count(rt: HostRuntime) -> Result<(), Fail> {
    let mut tape = full_tape(&rt, 65536)?;
    assert_eq!(rt; tape.append(&OVER), Err(Refusal::EntryTooLong.at(0, 4095)));
    Ok(())
}

#[test]
fn a_full_tape_refuses_the_count_before_the_space(rt: HostRuntime) -> Result<(), Fail> {
    let mut tape = full_tape(&rt, 16396)?;
    assert_eq!(rt; tape.space(), 0);
    assert_eq!(rt; tape.append(&[]), Err(Refusal::RollFull.at(0, 4095)));
    Ok(())
}
