use crate::common::{OVER, put};
use roll::Roll;
use std::process::Abort;
use std::test::Fail;
use tape::{Tape, check};
use tinyjambu::Refusal;

// Checks that a tape has nothing, and costs nothing.
fn has_nothing(rt: &impl Abort, tape: &Tape) {
    assert_eq!(rt; tape.name(), 0);
    assert_eq!(rt; tape.floor(), 0);
    assert_eq!(rt; tape.bound(), 0);
    assert_eq!(rt; tape.space(), 0);
    assert_eq!(rt; tape.count(), 0);
    for len in [0u32, 1, 4096, 4097, 4294967295] {
        assert_eq!(rt; tape.charge(len), 0);
    }
}

// Checks that a tape refuses each length, read and append.
fn refuses_all(rt: &impl Abort, tape: &mut Tape) {
    for entry in [0, 1, 4095, 4294967295u32] {
        let mut out = [0xaau8; 5];
        assert_eq!(rt; tape.length(entry), Err(Refusal::NoEntry.at(0, entry)));
        assert_eq!(rt;
            tape.read(entry, &mut out),
            Err(Refusal::NoEntry.at(0, entry))
        );
        assert!(rt; out == [0u8; 5]);
    }
    for len in [0usize, 1, 4097] {
        assert_eq!(rt;
            tape.append(&OVER[0..len]),
            Err(Refusal::EntryTooLong.at(0, 0))
        );
    }
}

// Checks that a memory is refused, and opens as a roll with nothing that never changes it.
fn is_nothing(
    rt: &(impl Abort + AllocGlobal),
    memory: Vec<u8>,
    refusal: Refusal,
) -> Result<(), Fail> {
    assert_eq!(rt; check(&memory), Err(refusal.at(0, 0)));
    let before = memory.clone()?;
    let mut tape = Tape::open(memory);
    has_nothing(rt, &tape);
    refuses_all(rt, &mut tape);
    has_nothing(rt, &tape);
    assert!(rt; tape.into_memory() == before);
    Ok(())
}

// A memory of zeros with a header, and the ends of entries.
fn memory_of(
    rt: &(impl Abort + AllocGlobal),
    len: u32,
    count: u32,
    ends: &[u32],
) -> Result<Vec<u8>, Fail> {
    let mut memory = vec![in rt.alloc(); 0u8; len as usize]?;
    put(rt, &mut memory, 0, 7);
    put(rt, &mut memory, 4, count);
    put(rt, &mut memory, 8, 16);
    put(rt, &mut memory, 12, len);
    let mut at = len as usize;
    for &end in ends {
        at = at.saturating_sub(4);
        put(rt, &mut memory, at, end);
    }
    Ok(memory)
}

// Checks that a memory is in order, and no longer with another number at a place.
fn is_nothing_with(
    rt: &(impl Abort + AllocGlobal),
    mut memory: Vec<u8>,
    at: usize,
    number: u32,
) -> Result<(), Fail> {
    assert!(rt; check(&memory).is_ok());
    put(rt, &mut memory, at, number);
    is_nothing(rt, memory, Refusal::TapeDisorder)
}

#[test]
fn the_header_says_how_long_the_memory_is(rt: HostRuntime) -> Result<(), Fail> {
    for number in [0u32, 31, 33, 0x0100_0020] {
        is_nothing_with(&rt, memory_of(&rt, 32, 1, &[18])?, 12, number)?;
    }
    Ok(())
}

#[test]
fn the_first_entry_begins_at_16(rt: HostRuntime) -> Result<(), Fail> {
    for number in [0u32, 15, 17, 0x0100_0010] {
        is_nothing_with(&rt, memory_of(&rt, 32, 1, &[18])?, 8, number)?;
    }
    Ok(())
}

#[test]
fn no_tape_has_4096_entries(rt: HostRuntime) -> Result<(), Fail> {
    let ends = [16u32; 4096];
    for number in [4096u32, 0x4000_0000, 4294967295] {
        is_nothing_with(&rt, memory_of(&rt, 65536, 4095, &ends)?, 4, number)?;
    }
    Ok(())
}

#[test]
fn the_ends_have_room_behind_the_header(rt: HostRuntime) -> Result<(), Fail> {
    is_nothing_with(&rt, memory_of(&rt, 16, 0, &[])?, 4, 1)?;
    is_nothing_with(&rt, memory_of(&rt, 32, 4, &[16; 4])?, 4, 5)?;
    is_nothing_with(&rt, memory_of(&rt, 35, 4, &[16; 4])?, 4, 5)?;
    Ok(())
}

#[test]
fn no_entry_ends_before_it_begins(rt: HostRuntime) -> Result<(), Fail> {
    is_nothing_with(&rt, memory_of(&rt, 32, 1, &[18])?, 28, 15)?;
    is_nothing_with(&rt, memory_of(&rt, 32, 2, &[18, 18])?, 24, 17)?;
    Ok(())
}

#[test]
fn no_entry_is_longer_than_4096_bytes(rt: HostRuntime) -> Result<(), Fail> {
    is_nothing_with(&rt, memory_of(&rt, 8192, 1, &[4112])?, 8188, 4113)?;
    is_nothing_with(&rt, memory_of(&rt, 8192, 2, &[18, 4114])?, 8184, 4115)?;
    Ok(())
}

#[test]
fn the_last_entry_ends_before_the_ends_stand(rt: HostRuntime) -> Result<(), Fail> {
    is_nothing_with(&rt, memory_of(&rt, 32, 1, &[28])?, 28, 29)?;
    is_nothing_with(&rt, memory_of(&rt, 32, 2, &[18, 24])?, 24, 25)?;
    Ok(())
}

#[test]
fn a_memory_of_another_length_is_nothing(rt: HostRuntime) -> Result<(), Fail> {
    is_nothing(&rt, vec![in rt.alloc(); 7u8; 15]?, Refusal::TapeLength)?;
    is_nothing(&rt, memory_of(&rt, 65537, 1, &[18])?, Refusal::TapeLength)?;
    Ok(())
}
