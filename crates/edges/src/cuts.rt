use crate::answer::refusal_of;
use crate::common::{BYTES, NONCE_WORDS, sealed, zero_engine};
use crate::session_use::{Halves, in_pieces};
use std::process::Abort;
use std::test::Fail;
use tinyjambu::{Fault, Session, seal_pieces};

// The first 9 of the bytes, as data, and the first 13, as text, sealed at once.
fn whole() -> Result<[u8; 21], Fault> {
    sealed(&mut zero_engine(), &BYTES[0..9], &BYTES[0..13])
}

// Bytes cut in two.
fn halves<'a>(rt: &impl Abort, bytes: &'a [u8], at: usize) -> Halves<'a> {
    assert!(rt; at <= bytes.len());
    let (first, second) = bytes.split_at(at);
    Halves { first, second }
}

#[test]
fn a_session_seals_any_halves_as_the_whole(rt: HostRuntime) -> Result<(), Fail> {
    let whole = whole()?;
    for ad in 0..10usize {
        for text in 0..14usize {
            let mut out = [0u8; 21];
            let data = halves(&rt, &BYTES[0..9], ad);
            let texts = halves(&rt, &BYTES[0..13], text);
            assert_eq!(rt;
                refusal_of(in_pieces(zero_engine(), NONCE_WORDS, data, texts, &mut out)),
                None
            );
            assert_eq!(rt; out, whole);
        }
    }
    Ok(())
}

// Seals the message byte by byte.
fn bytewise(rt: &impl Abort, out: &mut [u8; 13]) -> [u8; 8] {
    let mut session = Session::new(zero_engine(), NONCE_WORDS);
    for piece in BYTES[0..9].chunks(1) {
        assert_eq!(rt; refusal_of(session.absorb(piece)), None);
    }
    let mut sealing = session.into_text();
    for (piece, room) in BYTES[0..13].chunks(1).zip(out.chunks_mut(1)) {
        assert_eq!(rt; refusal_of(sealing.seal(piece, room)), None);
    }
    let (tag, _) = sealing.into_tag();
    tag
}

#[test]
fn a_session_seals_bytes_as_the_whole(rt: HostRuntime) -> Result<(), Fail> {
    let whole = whole()?;
    let mut out = [0u8; 13];
    let tag = bytewise(&rt, &mut out);
    assert!(rt; &out[0..13] == &whole[0..13]);
    assert!(rt; &tag[0..8] == &whole[13..21]);
    Ok(())
}

#[test]
fn pieces_seal_as_the_whole(rt: HostRuntime) -> Result<(), Fail> {
    let whole = whole()?;
    for first in 0..14usize {
        for second in first..14usize {
            let mut out = [0u8; 21];
            let data: [&[u8]; 3] = [&BYTES[0..first / 2], &[], &BYTES[first / 2..9]];
            let texts: [&[u8]; 3] = [&BYTES[0..first], &BYTES[first..second], &BYTES[second..13]];
            assert_eq!(rt;
                refusal_of(seal_pieces(&mut zero_engine(), NONCE_WORDS, &data, &texts, &mut out)),
                None
            );
            assert_eq!(rt; out, whole);
        }
    }
    Ok(())
}
