use crate::answer::refusal_of;
use crate::common::{BYTES, sealed};
use std::test::Fail;
use tinyjambu::{Fault, Key, Refusal, WordEngine};

// What five bytes are sealed to under a key.
fn sealed_under(key: Key) -> Result<[u8; 13], Fault> {
    sealed(&mut WordEngine::new(key), &[], b"right")
}

#[test]
fn only_three_lengths_fill_a_key(rt: HostRuntime) -> Result<(), Fail> {
    for len in 0..41usize {
        let mut key = Key::new();
        assert_eq!(rt; refusal_of(key.fill(b"a key of sixteen")), None);
        let before = sealed_under(key)?;
        let wrong = !matches!(len, 16 | 24 | 32);
        assert_eq!(rt;
            refusal_of(key.fill(&BYTES[0..len])),
            wrong.then_some(Refusal::KeyLength)
        );
        assert_eq!(rt; sealed_under(key)? == before, wrong);
    }
    Ok(())
}
