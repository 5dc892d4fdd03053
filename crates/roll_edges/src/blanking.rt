use std::alloc::AllocError;
use std::process::Abort;
use std::test::Fail;
use tape::{blank, check};
use tinyjambu::Refusal;

// Checks that the blanking of so many bytes is refused, and changes none of them.
fn is_refused(rt: &(impl Abort + AllocGlobal), len: usize) -> Result<(), AllocError> {
    let mut memory = vec![in rt.alloc(); 0xaau8; len]?;
    assert_eq!(rt; blank(&mut memory, 7), Err(Refusal::TapeLength.at(0, 0)));
    assert_eq!(rt; memory.len(), len);
    assert!(rt; memory.iter().all(|&byte| byte == 0xaa));
    Ok(())
}

// Checks that the blanking of so many bytes writes a header, of which the last four bytes are given, and no other byte.
fn is_blanked(
    rt: &(impl Abort + AllocGlobal),
    len: usize,
    size: [u8; 4],
) -> Result<(), AllocError> {
    let mut memory = vec![in rt.alloc(); 0xaau8; len]?;
    assert_eq!(rt; blank(&mut memory, 0x0403_0201), Ok(()));
    assert_eq!(rt; memory.len(), len);
    assert!(rt; len >= 16);
    assert!(rt; &memory[0..12] == [1, 2, 3, 4, 0, 0, 0, 0, 16, 0, 0, 0].as_slice());
    assert!(rt; &memory[12..16] == size.as_slice());
    assert!(rt; memory[16..].iter().all(|&byte| byte == 0xaa));
    assert_eq!(rt; check(&memory), Ok(0));
    Ok(())
}

#[test]
fn fewer_than_16_bytes_are_no_tape(rt: HostRuntime) -> Result<(), Fail> {
    is_refused(&rt, 0)?;
    is_refused(&rt, 15)?;
    Ok(())
}

#[test]
fn more_than_65536_bytes_are_no_tape(rt: HostRuntime) -> Result<(), Fail> {
    is_refused(&rt, 65537)?;
    Ok(())
}

#[test]
fn the_shortest_and_the_longest_tape_are_blanked(rt: HostRuntime) -> Result<(), Fail> {
    is_blanked(&rt, 16, [16, 0, 0, 0])?;
    is_blanked(&rt, 65536, [0, 0, 1, 0])?;
    Ok(())
}

#[test]
fn refusals_of_a_memory_have_their_numbers(rt: HostRuntime) {
    assert_eq!(rt; u8::from(Refusal::TapeLength), 6);
    assert_eq!(rt; u8::from(Refusal::TapeDisorder), 7);
}
