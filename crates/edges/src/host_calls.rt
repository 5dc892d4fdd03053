// The calls for C answer numbers: a length, or a refusal's number below zero.
use crate::common::{BYTES, NONCE};
use host::{vurshade_open, vurshade_seal};

#[test]
fn empty_text_wants_eight_bytes(rt: HostRuntime) {
    let mut out = [7u8; 8];
    assert_eq!(rt;
        vurshade_seal(&[0; 16], &NONCE, &[], &[], &mut out[0..7]),
        -12
    );
    assert!(rt; out == [7u8; 8]);
    assert_eq!(rt; vurshade_seal(&[0; 16], &NONCE, &[], &[], &mut out), 8);
}

#[test]
fn key_is_checked_first(rt: HostRuntime) {
    let mut out = [7u8; 8];
    assert_eq!(rt;
        vurshade_seal(&[0; 15], &[0; 11], &[], &[], &mut out[0..7]),
        -1
    );
    assert!(rt; out == [7u8; 8]);
    assert_eq!(rt; vurshade_open(&[0; 33], &[0; 11], &[], &[], &mut out), -1);
    assert!(rt; out == [0u8; 8]);
}

#[test]
fn refused_opening_leaves_only_zeros(rt: HostRuntime) {
    let mut out = [7u8; 8];
    assert_eq!(rt; vurshade_open(&[0; 16], &[0; 11], &[], &[], &mut out), -2);
    assert!(rt; out == [0u8; 8]);
    out = [7u8; 8];
    assert_eq!(rt;
        vurshade_open(&[0; 16], &NONCE, &[], &BYTES[0..16], &mut out),
        -13
    );
    assert!(rt; out == [0u8; 8]);
}

#[test]
fn what_was_sealed_opens(rt: HostRuntime) {
    let mut sealed = [0u8; 48];
    assert_eq!(rt;
        vurshade_seal(&BYTES[0..24], &NONCE, b"scene", &BYTES, &mut sealed),
        48
    );
    // A byte longer than the text on purpose: it stays.
    let mut back = [7u8; 41];
    assert_eq!(rt;
        vurshade_open(&BYTES[0..24], &NONCE, b"scene", &sealed, &mut back),
        40
    );
    assert!(rt; back[0..40] == BYTES[0..40]);
    assert_eq!(rt; back[40], 7);
}
