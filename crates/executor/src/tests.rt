// A small delivery from beginning to end.
use super::*;
use crate::run::{Halt, deliver};
use std::test::Fail;

const fn notice(feed: usize, room: usize, id: u64) -> Notice {
    Notice { feed, room, id }
}

// Two feeds and two rooms over two message cells: the gate shuts, the memory fills, and everything is delivered.
#[test]
fn delivers(rt: HostRuntime) -> Result<(), Fail> {
    let mut elements = [Cell::new(), Cell::new()];
    let mut entries = [Cell::new(), Cell::new(), Cell::new(), Cell::new()];
    let mut woken = [0u32; 4];
    let notices = [
        notice(0, 0, 10),
        notice(0, 1, 11),
        notice(1, 0, 20),
        notice(0, 0, 12),
    ];
    let Ok(outcome) = deliver(
        rt.alloc(),
        &mut elements,
        &mut entries,
        &mut woken,
        &notices,
        2,
        2,
        &rt,
    ) else {
        return Err(Fail::new("stopped"));
    };
    assert!(rt; outcome.all);
    assert_eq!(rt; outcome.floor.deliveries().len(), 4);
    let mut digits = 0u64;
    for delivery in outcome.floor.deliveries() {
        if delivery.room == 0 {
            digits = digits.wrapping_mul(100).wrapping_add(delivery.id);
        }
    }
    assert_eq!(rt; digits, 101220);
    Ok(())
}

// No woken list: no channels are opened.
#[test]
fn halts(rt: HostRuntime) -> Result<(), Fail> {
    let mut elements = [Cell::new()];
    let mut entries = [Cell::new()];
    let mut woken = [0u32; 0];
    let Err(halt) = deliver(
        rt.alloc(),
        &mut elements,
        &mut entries,
        &mut woken,
        &[notice(0, 0, 10)],
        1,
        1,
        &rt,
    ) else {
        return Err(Fail::new("delivered"));
    };
    assert!(rt; matches!(halt, Halt::Refused(Refusal::Lengths)));
    let text = halt.to_string(rt.alloc())?;
    assert_eq!(rt; text.as_str(), "a call was refused");
    Ok(())
}
