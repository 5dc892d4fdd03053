use crate::common::{try_open, try_seal};
use std::alloc::{AllocError, Global};
use std::test::Fail;
use tinyjambu::Refusal;

// What refuses a text in sealing, and in opening it into `back`.
fn try_text(
    heap: Global,
    text: &[u8],
    back: &mut [u8],
) -> Result<[Option<Refusal>; 2], AllocError> {
    let mut out = vec![in heap; 0u8; text.len().saturating_add(8)]?;
    let sealing = try_seal(&[], text, &mut out);
    let opening = try_open(&[], &out, back);
    Ok([sealing, opening])
}

// What refuses so many bytes of data in sealing and in opening.
fn try_data(heap: Global, len: usize) -> Result<[Option<Refusal>; 2], AllocError> {
    let ad = vec![in heap; 7u8; len]?;
    let mut out = [0u8; 8];
    let sealing = try_seal(&ad, &[], &mut out);
    let opening = try_open(&ad, &out, &mut []);
    Ok([sealing, opening])
}

#[test]
fn text_of_65536_bytes_is_taken(rt: HostRuntime) -> Result<(), Fail> {
    let text = vec![in rt.alloc(); 7u8; 65536]?;
    let mut back = vec![in rt.alloc(); 0u8; 65536]?;
    assert_eq!(rt; try_text(rt.alloc(), &text, &mut back)?, [None; 2]);
    assert!(rt; back == text);
    Ok(())
}

#[test]
fn text_of_65537_bytes_is_refused(rt: HostRuntime) -> Result<(), Fail> {
    let text = vec![in rt.alloc(); 7u8; 65537]?;
    let mut back = vec![in rt.alloc(); 0u8; 65537]?;
    assert_eq!(rt;
        try_text(rt.alloc(), &text, &mut back)?,
        [Some(Refusal::TextTooLong); 2]
    );
    assert!(rt; back != text);
    Ok(())
}

#[test]
fn data_of_65536_bytes_is_taken(rt: HostRuntime) -> Result<(), Fail> {
    assert_eq!(rt; try_data(rt.alloc(), 65536)?, [None; 2]);
    Ok(())
}

#[test]
fn data_of_65537_bytes_is_refused(rt: HostRuntime) -> Result<(), Fail> {
    assert_eq!(rt;
        try_data(rt.alloc(), 65537)?,
        [Some(Refusal::DataTooLong); 2]
    );
    Ok(())
}

#[test]
fn seven_sealed_bytes_are_too_few(rt: HostRuntime) {
    assert_eq!(rt;
        try_open(&[], &[0; 7], &mut []),
        Some(Refusal::SealedTooShort)
    );
}

#[test]
fn eight_sealed_bytes_that_fit_nothing_are_broken(rt: HostRuntime) {
    assert_eq!(rt; try_open(&[], &[0; 8], &mut []), Some(Refusal::Broken));
}
