use crate::answer::refusal_of;
use crate::common::BYTES;
use pocket::Pocket;
use roll::Roll;
use std::process::Abort;
use tinyjambu::Refusal;

// The longest entry of a pocket, and one that is a byte longer.
const LONGEST: [u8; 512] = [0x5a; 512];

const OVER: [u8; 513] = [0x5a; 513];

// Checks what is left of a pocket, and how many entries it has.
fn holds(rt: &impl Abort, pocket: &Pocket, space: u32, count: u32) {
    assert_eq!(rt; pocket.space(), space);
    assert_eq!(rt; pocket.count(), count);
}

// Checks that each of 64 entries of one byte is its own number.
fn each_reads_back(rt: &impl Abort, pocket: &mut Pocket) {
    for i in 0..64u8 {
        let mut out = [0xaau8; 1];
        assert_eq!(rt; pocket.length(i.into()), Ok(1));
        assert_eq!(rt; pocket.read(i.into(), &mut out), Ok(1));
        assert_eq!(rt; out, [i]);
    }
}

#[test]
fn a_pocket_takes_64_entries_of_a_byte(rt: HostRuntime) {
    let mut pocket = Pocket::new(7);
    for i in 0..64u8 {
        assert_eq!(rt; pocket.append(&[i]), Ok(i.into()));
    }
    holds(&rt, &pocket, 0, 64);
    assert_eq!(rt; pocket.append(&[64]), Err(Refusal::NoSpace.at(0, 64)));
    holds(&rt, &pocket, 0, 64);
    each_reads_back(&rt, &mut pocket);
}

#[test]
fn an_entry_of_512_bytes_costs_512(rt: HostRuntime) {
    let mut pocket = Pocket::new(7);
    holds(&rt, &pocket, 4096, 0);
    assert_eq!(rt; pocket.charge(512), 512);
    assert_eq!(rt; pocket.append(&LONGEST), Ok(0));
    holds(&rt, &pocket, 3584, 1);
}

#[test]
fn an_entry_of_513_bytes_is_refused(rt: HostRuntime) {
    let mut pocket = Pocket::new(7);
    assert_eq!(rt; pocket.append(&LONGEST), Ok(0));
    assert_eq!(rt; pocket.charge(513), 0);
    assert_eq!(rt; pocket.append(&OVER), Err(Refusal::EntryTooLong.at(0, 1)));
    holds(&rt, &pocket, 3584, 1);
}

#[test]
fn an_empty_entry_costs_a_page(rt: HostRuntime) {
    let mut pocket = Pocket::new(7);
    assert_eq!(rt; pocket.charge(0), 64);
    assert_eq!(rt; pocket.append(&[]), Ok(0));
    holds(&rt, &pocket, 4032, 1);
    assert_eq!(rt; pocket.length(0), Ok(0));
    assert_eq!(rt; pocket.read(0, &mut []), Ok(0));
}

#[test]
fn a_full_pocket_refuses_the_length_before_the_space(rt: HostRuntime) {
    let mut pocket = Pocket::new(7);
    for i in 0..8u32 {
        assert_eq!(rt; pocket.append(&LONGEST), Ok(i));
    }
    holds(&rt, &pocket, 0, 8);
    assert_eq!(rt; pocket.append(&OVER), Err(Refusal::EntryTooLong.at(0, 8)));
    assert_eq!(rt; pocket.append(&[1]), Err(Refusal::NoSpace.at(0, 8)));
}

#[test]
fn a_read_wants_the_room_of_the_entry(rt: HostRuntime) {
    let mut pocket = Pocket::new(7);
    assert_eq!(rt; pocket.append(&BYTES), Ok(0));
    let mut out = [0xaau8; 40];
    assert_eq!(rt; pocket.read(0, &mut out), Ok(40));
    assert_eq!(rt; out, BYTES);
    let mut short = [0xaau8; 39];
    assert_eq!(rt;
        pocket.read(0, &mut short),
        Err(Refusal::OutTooShort.at(0, 0))
    );
    assert!(rt; short == [0u8; 39]);
    assert_eq!(rt; pocket.read(0, &mut []), Err(Refusal::OutTooShort.at(0, 0)));
}

#[test]
fn a_read_leaves_what_is_behind_the_entry(rt: HostRuntime) {
    let mut pocket = Pocket::new(7);
    assert_eq!(rt; pocket.append(&[]), Ok(0));
    assert_eq!(rt; pocket.append(b"two"), Ok(1));
    let mut out = [0xaau8; 4];
    assert_eq!(rt; pocket.read(0, &mut out), Ok(0));
    assert!(rt; out == [0xaau8; 4]);
    assert_eq!(rt; pocket.read(1, &mut out), Ok(3));
    assert!(rt; &out[0..3] == b"two".as_slice());
    assert_eq!(rt; out[3], 0xaa);
}

#[test]
fn a_pocket_refuses_numbers_without_an_entry(rt: HostRuntime) {
    let mut pocket = Pocket::new(7);
    assert_eq!(rt; pocket.append(b"one"), Ok(0));
    assert_eq!(rt; pocket.append(b"two"), Ok(1));
    for entry in [2, 4095, 4294967295u32] {
        let mut out = [0xaau8; 5];
        assert_eq!(rt; pocket.length(entry), Err(Refusal::NoEntry.at(0, entry)));
        assert_eq!(rt;
            pocket.read(entry, &mut out),
            Err(Refusal::NoEntry.at(0, entry))
        );
        assert!(rt; out == [0u8; 5]);
    }
}

#[test]
fn charges_are_whole_pages(rt: HostRuntime) {
    let pocket = Pocket::new(7);
    assert_eq!(rt; pocket.charge(1), 64);
    assert_eq!(rt; pocket.charge(64), 64);
    assert_eq!(rt; pocket.charge(65), 128);
    assert_eq!(rt; pocket.charge(511), 512);
}

#[test]
fn refusals_of_a_pocket_have_their_numbers(rt: HostRuntime) {
    let mut pocket = Pocket::new(7);
    assert_eq!(rt; refusal_of(pocket.length(0)).map(u8::from), Some(8));
    assert_eq!(rt; refusal_of(pocket.append(&OVER)).map(u8::from), Some(9));
    assert_eq!(rt; refusal_of(pocket.append(&BYTES)).map(u8::from), None);
    assert_eq!(rt; refusal_of(pocket.read(0, &mut [])).map(u8::from), Some(12));
    for _ in 0..7 {
        assert_eq!(rt; refusal_of(pocket.append(&LONGEST)).map(u8::from), None);
    }
    assert_eq!(rt; refusal_of(pocket.append(&LONGEST)).map(u8::from), Some(11));
}
