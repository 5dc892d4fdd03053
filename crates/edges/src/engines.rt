use crate::answer::refusal_of;
use crate::common::{BYTES, NONCE, sealed};
use std::process::Abort;
use std::test::Fail;
use tinyjambu::{BitEngine, Engine, Key, WordEngine, open};

// Checks that an engine opens sealed bytes to a text.
fn opens<E: Engine>(rt: &impl Abort, engine: &mut E, sealed: &[u8], text: &[u8]) {
    assert!(rt; text.len() <= 16);
    // Longer than the text on purpose: opening writes the text at the start of the buffer.
    let mut back = [0u8; 16];
    assert_eq!(rt;
        refusal_of(open(engine, &NONCE, b"data", sealed, &mut back)),
        None
    );
    assert!(rt; &back[0..text.len()] == text);
}

// Checks that both engines of a key seal a text to the same bytes, and that each opens them.
fn engines_agree(rt: &impl Abort, key: Key, text: &[u8]) -> Result<(), Fail> {
    assert!(rt; text.len() <= 16);
    let mut bits = BitEngine::new(key);
    let mut words = WordEngine::new(key);
    let by_bits: [u8; 24] = sealed(&mut bits, b"data", text)?;
    assert_eq!(rt; by_bits, sealed(&mut words, b"data", text)?);
    let sealed = &by_bits[0..text.len() + 8];
    opens(rt, &mut bits, sealed, text);
    opens(rt, &mut words, sealed, text);
    Ok(())
}

#[test]
fn both_engines_agree(rt: HostRuntime) -> Result<(), Fail> {
    let keys: [&[u8]; 3] = [&BYTES[0..16], &BYTES[0..24], &BYTES[0..32]];
    for bytes in keys {
        let key = Key::try_from(bytes)?;
        for len in 0..17usize {
            engines_agree(&rt, key, &BYTES[0..len])?;
        }
    }
    Ok(())
}
