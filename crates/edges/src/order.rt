use crate::answer::refusal_of;
use crate::common::{NONCE_WORDS, zero_engine};
use std::alloc::{AllocError, Global};
use std::process::Abort;
use std::test::Fail;
use tinyjambu::{Refusal, Session, open, seal, seal_pieces};

// So many zeros.
fn zeros(heap: Global, len: usize) -> Result<Vec<u8>, AllocError> {
    vec![in heap; 0u8; len]
}

// Checks what sealing answers to lengths that are wrong where a flag says so.
fn sealing(rt: &(impl Abort + AllocGlobal), wrong: [bool; 4]) -> Result<(), AllocError> {
    let heap = rt.alloc();
    let [nonce, ad, text, room] = wrong;
    let text_len = if text { 65537 } else { 5 };
    let answer = seal(
        &mut zero_engine(),
        &zeros(heap, if nonce { 11 } else { 12 })?,
        &zeros(heap, if ad { 65537 } else { 3 })?,
        &zeros(heap, text_len)?,
        &mut zeros(heap, text_len + if room { 7 } else { 8 })?,
    );
    let refusal = nonce
        .then_some(Refusal::NonceLength)
        .or(ad.then_some(Refusal::DataTooLong))
        .or(text.then_some(Refusal::TextTooLong))
        .or(room.then_some(Refusal::OutTooShort));
    assert_eq!(rt; refusal_of(answer), refusal);
    Ok(())
}

#[test]
fn sealing_refuses_in_order(rt: HostRuntime) -> Result<(), Fail> {
    for nonce in [false, true] {
        for ad in [false, true] {
            for text in [false, true] {
                for room in [false, true] {
                    sealing(&rt, [nonce, ad, text, room])?;
                }
            }
        }
    }
    Ok(())
}

// Checks what opening so many zeros answers, with lengths that are wrong where a flag says so. No text seals to the zeros.
fn opening(
    rt: &(impl Abort + AllocGlobal),
    sealed: usize,
    wrong: [bool; 3],
) -> Result<(), AllocError> {
    let heap = rt.alloc();
    let [nonce, ad, room] = wrong;
    let text = sealed.saturating_sub(8);
    let answer = open(
        &mut zero_engine(),
        &zeros(heap, if nonce { 13 } else { 12 })?,
        &zeros(heap, if ad { 65537 } else { 3 })?,
        &zeros(heap, sealed)?,
        &mut zeros(heap, text.saturating_sub(usize::from(room)))?,
    );
    let refusal = nonce
        .then_some(Refusal::NonceLength)
        .or(ad.then_some(Refusal::DataTooLong))
        .or((text > 65536).then_some(Refusal::TextTooLong))
        .or((sealed < 8).then_some(Refusal::SealedTooShort))
        .or(room.then_some(Refusal::OutTooShort))
        .unwrap_or(Refusal::Broken);
    assert_eq!(rt; refusal_of(answer), Some(refusal));
    Ok(())
}

#[test]
fn opening_refuses_in_order(rt: HostRuntime) -> Result<(), Fail> {
    for sealed in [7, 13, 65545] {
        for nonce in [false, true] {
            for ad in [false, true] {
                for room in [false, true] {
                    opening(&rt, sealed, [nonce, ad, room])?;
                }
            }
        }
    }
    Ok(())
}

// Checks what sealing in pieces answers to lengths that are wrong where a flag says so.
fn sealing_pieces(rt: &(impl Abort + AllocGlobal), wrong: [bool; 3]) -> Result<(), AllocError> {
    let heap = rt.alloc();
    let [ad, text, room] = wrong;
    let one = [0u8];
    let ad_bytes = zeros(heap, if ad { 65536 } else { 3 })?;
    let text_len = if text { 65536 } else { 4 };
    let text_bytes = zeros(heap, text_len)?;
    let mut out = zeros(heap, text_len + if room { 8 } else { 9 })?;
    let answer = seal_pieces(
        &mut zero_engine(),
        NONCE_WORDS,
        &[&ad_bytes, &one],
        &[&one, &text_bytes],
        &mut out,
    );
    let refusal = ad
        .then_some(Refusal::DataTooLong)
        .or(text.then_some(Refusal::TextTooLong))
        .or(room.then_some(Refusal::OutTooShort));
    assert_eq!(rt; refusal_of(answer), refusal);
    Ok(())
}

#[test]
fn sealing_pieces_refuses_in_order(rt: HostRuntime) -> Result<(), Fail> {
    for ad in [false, true] {
        for text in [false, true] {
            for room in [false, true] {
                sealing_pieces(&rt, [ad, text, room])?;
            }
        }
    }
    Ok(())
}

#[test]
fn a_session_refuses_the_length_before_the_room(rt: HostRuntime) -> Result<(), Fail> {
    let all = zeros(rt.alloc(), 65537)?;
    let mut out = [0u8; 5];
    let mut text = Session::new(zero_engine(), NONCE_WORDS).into_text();
    let steps = [
        (65537, Some(Refusal::TextTooLong)),
        (6, Some(Refusal::OutTooShort)),
        (5, None),
        (65532, Some(Refusal::TextTooLong)),
        (65531, Some(Refusal::OutTooShort)),
    ];
    for (len, refusal) in steps {
        assert!(rt; len <= all.len());
        assert_eq!(rt; refusal_of(text.seal(&all[0..len], &mut out)), refusal);
    }
    Ok(())
}

#[test]
fn a_session_counts_all_of_its_data(rt: HostRuntime) -> Result<(), Fail> {
    let all = zeros(rt.alloc(), 65537)?;
    let mut session = Session::new(zero_engine(), NONCE_WORDS);
    let steps = [
        (65537, Some(Refusal::DataTooLong)),
        (65530, None),
        (7, Some(Refusal::DataTooLong)),
        (6, None),
        (1, Some(Refusal::DataTooLong)),
    ];
    for (len, refusal) in steps {
        assert!(rt; len <= all.len());
        assert_eq!(rt; refusal_of(session.absorb(&all[0..len])), refusal);
    }
    Ok(())
}
