use crate::common::{BYTES, try_open, try_seal};
use std::alloc::AllocError;
use std::process::Abort;
use std::test::Fail;
use tinyjambu::Refusal;

// Checks that sealed bytes are refused, and leave only zeros in an out buffer that is as long as their text.
fn is_refused(rt: &(impl Abort + AllocGlobal), sealed: &[u8]) -> Result<(), AllocError> {
    let mut out = vec![in rt.alloc(); 0xaau8; sealed.len().saturating_sub(8)]?;
    assert_eq!(rt; try_open(b"data", sealed, &mut out), Some(Refusal::Broken));
    assert!(rt; out.iter().all(|&byte| byte == 0));
    Ok(())
}

// Checks that sealed bytes are refused with any one bit changed.
// It goes by index, since the whole slice is read while a byte is changed.
fn each_change_is_refused(
    rt: &(impl Abort + AllocGlobal),
    sealed: &mut [u8],
) -> Result<(), AllocError> {
    for at in 0..sealed.len() {
        for bit in 0..8u32 {
            sealed[at] ^= 1 << bit;
            is_refused(rt, sealed)?;
            sealed[at] ^= 1 << bit;
        }
    }
    Ok(())
}

// Checks that a text opens as it was sealed, and not where one bit of the sealed bytes is changed.
fn only_the_sealed_opens(rt: &(impl Abort + AllocGlobal), text: &[u8]) -> Result<(), AllocError> {
    let mut sealed = vec![in rt.alloc(); 0u8; text.len().saturating_add(8)]?;
    assert_eq!(rt; try_seal(b"data", text, &mut sealed), None);
    each_change_is_refused(rt, &mut sealed)?;
    let mut out = vec![in rt.alloc(); 0u8; text.len()]?;
    assert_eq!(rt; try_open(b"data", &sealed, &mut out), None);
    assert!(rt; out.as_slice() == text);
    Ok(())
}

#[test]
fn every_changed_bit_is_refused(rt: HostRuntime) -> Result<(), Fail> {
    for len in 0..17usize {
        only_the_sealed_opens(&rt, &BYTES[0..len])?;
    }
    Ok(())
}
