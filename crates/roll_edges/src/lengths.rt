use crate::common::{LONGEST, OVER, empty_tape};
use roll::Roll;
use std::test::Fail;
use tinyjambu::Refusal;

#[test]
fn a_tape_of_16_bytes_takes_no_entry(rt: HostRuntime) -> Result<(), Fail> {
    let mut tape = empty_tape(rt.alloc(), 16)?;
    assert_eq!(rt; tape.space(), 0);
    assert_eq!(rt; tape.append(&[]), Err(Refusal::NoSpace.at(0, 0)));
    assert_eq!(rt; tape.count(), 0);
    Ok(())
}

#[test]
fn a_tape_of_20_bytes_takes_one_empty_entry(rt: HostRuntime) -> Result<(), Fail> {
    let mut tape = empty_tape(rt.alloc(), 20)?;
    assert_eq!(rt; tape.space(), 4);
    assert_eq!(rt; tape.append(&[1]), Err(Refusal::NoSpace.at(0, 0)));
    assert_eq!(rt; tape.append(&[]), Ok(0));
    assert_eq!(rt; tape.space(), 0);
    assert_eq!(rt; tape.append(&[]), Err(Refusal::NoSpace.at(0, 1)));
    assert_eq!(rt; tape.count(), 1);
    Ok(())
}

#[test]
fn an_entry_of_4096_bytes_is_taken(rt: HostRuntime) -> Result<(), Fail> {
    let mut tape = empty_tape(rt.alloc(), 4116)?;
    assert_eq!(rt; tape.charge(4096), 4100);
    assert_eq!(rt; tape.append(&LONGEST), Ok(0));
    assert_eq!(rt; tape.space(), 0);
    let mut out = [0u8; 4096];
    assert_eq!(rt; tape.read(0, &mut out), Ok(4096));
    assert!(rt; out == LONGEST);
    Ok(())
}

#[test]
fn an_entry_of_4097_bytes_is_refused(rt: HostRuntime) -> Result<(), Fail> {
    let mut tape = empty_tape(rt.alloc(), 65536)?;
    assert_eq!(rt; tape.charge(4097), 0);
    assert_eq!(rt; tape.append(&OVER), Err(Refusal::EntryTooLong.at(0, 0)));
    assert_eq!(rt; tape.space(), 65520);
    Ok(())
}

#[test]
fn the_length_is_refused_before_the_space(rt: HostRuntime) -> Result<(), Fail> {
    let mut tape = empty_tape(rt.alloc(), 4115)?;
    assert_eq!(rt; tape.append(&OVER), Err(Refusal::EntryTooLong.at(0, 0)));
    assert_eq!(rt; tape.append(&LONGEST), Err(Refusal::NoSpace.at(0, 0)));
    Ok(())
}
