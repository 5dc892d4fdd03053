use std::test::Fail;
use tinyjambu::Refusal;

#[test]
fn a_fault_prints_its_number_its_words_and_its_place(rt: HostRuntime) -> Result<(), Fail> {
    let fault = Refusal::NoSpace.at(3, 41);
    let text = format!(in rt.alloc(); "{fault}")?;
    assert!(rt;
        text.as_str()
            == "refusal 11: the charge of the entry is more than the space (floor 3, entry 41)"
    );
    Ok(())
}

#[test]
fn each_refusal_has_its_number(rt: HostRuntime) {
    let refusals = [
        Refusal::KeyLength,
        Refusal::NonceLength,
        Refusal::DataTooLong,
        Refusal::TextTooLong,
        Refusal::SealedTooShort,
        Refusal::TapeLength,
        Refusal::TapeDisorder,
        Refusal::NoEntry,
        Refusal::EntryTooLong,
        Refusal::RollFull,
        Refusal::NoSpace,
        Refusal::OutTooShort,
        Refusal::Broken,
    ];
    for (refusal, number) in refusals.into_iter().zip(1..14u8) {
        assert_eq!(rt; u8::from(refusal), number);
    }
}
