// What is found of memories made by chance is what the rules say.
use crate::memories::{change_a_byte, laid_out, scattered};
use crate::numbers::Numbers;
use crate::rules::{found, lines};
use std::alloc::AllocError;
use std::process::Abort;
use std::test::Fail;
use tape::{check, listing};

// Checks that a memory is judged and listed by the rules, and answers whether it is in order.
fn by_the_rules(rt: &(impl Abort + AllocGlobal), memory: Vec<u8>) -> Result<bool, AllocError> {
    let heap = rt.alloc();
    let found = found(&memory);
    let expected = lines(heap, &memory)?;
    assert_eq!(rt;
        check(&memory),
        found
            .map(|found| found.count)
            .map_err(|refusal| refusal.at(0, 0))
    );
    assert!(rt; listing(heap, memory)? == expected);
    Ok(found.is_ok())
}

// Checks that of 4,000 memories some hundreds were in order and some hundreds were not, so that neither answer is seldom tried.
fn are_mixed(rt: &impl Abort, ordered: u32) {
    assert!(rt; ordered >= 500, "{ordered} in order");
    assert!(rt; ordered <= 3500, "{ordered} in order");
}

#[test]
fn laid_out_memories_are_judged_by_the_rules(rt: HostRuntime) -> Result<(), Fail> {
    let mut numbers = Numbers::new(1);
    let mut ordered = 0u32;
    for _ in 0..4000u32 {
        let memory = laid_out(&rt, &mut numbers)?;
        ordered = ordered.saturating_add(u32::from(by_the_rules(&rt, memory)?));
    }
    are_mixed(&rt, ordered);
    Ok(())
}

#[test]
fn memories_with_a_byte_changed_are_judged_by_the_rules(rt: HostRuntime) -> Result<(), Fail> {
    let mut numbers = Numbers::new(2);
    let mut ordered = 0u32;
    for _ in 0..4000u32 {
        let mut memory = laid_out(&rt, &mut numbers)?;
        change_a_byte(&rt, &mut numbers, &mut memory);
        ordered = ordered.saturating_add(u32::from(by_the_rules(&rt, memory)?));
    }
    are_mixed(&rt, ordered);
    Ok(())
}

#[test]
fn scattered_memories_are_judged_by_the_rules(rt: HostRuntime) -> Result<(), Fail> {
    let mut numbers = Numbers::new(3);
    for _ in 0..1000u32 {
        let len = numbers.below(65) as usize;
        let memory = scattered(rt.alloc(), &mut numbers, len)?;
        by_the_rules(&rt, memory)?;
    }
    Ok(())
}
