use crate::common::{append_all, empty_tape};
use pocket::Pocket;
use roll::agree;
use std::process::Abort;
use std::test::Fail;

// Whether a tape and a pocket with these entries agree.
fn they_agree(
    rt: &(impl Abort + AllocGlobal),
    on_tape: &[&[u8]],
    in_pocket: &[&[u8]],
) -> Result<bool, Fail> {
    let mut tape = empty_tape(rt.alloc(), 128)?;
    let mut pocket = Pocket::new(8);
    append_all(rt, &mut tape, on_tape);
    append_all(rt, &mut pocket, in_pocket);
    Ok(agree(&mut tape, &mut pocket))
}

#[test]
fn an_empty_tape_and_an_empty_pocket_agree(rt: HostRuntime) -> Result<(), Fail> {
    assert!(rt; they_agree(&rt, &[], &[])?);
    Ok(())
}

#[test]
fn the_same_entries_agree(rt: HostRuntime) -> Result<(), Fail> {
    assert!(rt; they_agree(&rt, &[b"one", b"", b"three"], &[b"one", b"", b"three"])?);
    Ok(())
}

#[test]
fn one_entry_more_does_not_agree(rt: HostRuntime) -> Result<(), Fail> {
    assert!(rt; !they_agree(&rt, &[b"one", b""], &[b"one"])?);
    assert!(rt; !they_agree(&rt, &[b"one"], &[b"one", b""])?);
    assert!(rt; !they_agree(&rt, &[], &[b""])?);
    Ok(())
}

#[test]
fn another_byte_in_the_last_entry_does_not_agree(rt: HostRuntime) -> Result<(), Fail> {
    assert!(rt; !they_agree(&rt, &[b"one", b"two"], &[b"one", b"twO"])?);
    Ok(())
}
