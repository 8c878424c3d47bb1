// What a bank does on small memories.
ghost use Rattle.std.specs.Prelude.{nat_lt};

use super::*;
use std::test::Fail;

// An element that is neither copied nor compared.
#[derive(Drop)]
struct Parcel {
    weight: u32,
}

// Holds of the numbers below one.
#[derive(Clone, Copy)]
struct Below(u32);

impl Test<u32> for Below {
    ghost passes = { λ s x. nat_lt x s.0 };

    fn test(&self, x: &u32) -> bool {
        *x < self.0
    }
}

// Three cells to make a memory of.
fn three<T>() -> [Cell<T>; 3] {
    [Cell::new(), Cell::new(), Cell::new()]
}

#[test]
fn first_in_first_out(rt: HostRuntime) {
    let mut cells = three();
    let mut bank = Bank::new(&mut cells);
    let mut q = Queue::new();
    assert_eq!(rt; bank.add(&mut q, 10u32), Ok(()));
    assert_eq!(rt; bank.add(&mut q, 11), Ok(()));
    assert_eq!(rt; bank.add(&mut q, 12), Ok(()));
    assert_eq!(rt; bank.take(&mut q), Some(10));
    assert_eq!(rt; bank.take(&mut q), Some(11));
    assert_eq!(rt; bank.take(&mut q), Some(12));
    assert_eq!(rt; bank.take(&mut q), None);
}

#[test]
fn freed_cells_serve_again(rt: HostRuntime) {
    let mut cells = three();
    let mut bank = Bank::new(&mut cells);
    let mut q = Queue::new();
    assert_eq!(rt; bank.add(&mut q, 10u32), Ok(()));
    assert_eq!(rt; bank.add(&mut q, 11), Ok(()));
    assert_eq!(rt; bank.add(&mut q, 12), Ok(()));
    assert_eq!(rt; bank.take(&mut q), Some(10));
    assert_eq!(rt; bank.add(&mut q, 13), Ok(()));
    assert_eq!(rt; bank.take(&mut q), Some(11));
    assert_eq!(rt; bank.add(&mut q, 14), Ok(()));
    assert_eq!(rt; bank.take(&mut q), Some(12));
    assert_eq!(rt; bank.take(&mut q), Some(13));
    assert_eq!(rt; bank.take(&mut q), Some(14));
}

#[test]
fn free_and_len(rt: HostRuntime) {
    let mut cells = three();
    let mut bank = Bank::new(&mut cells);
    let mut q = Queue::new();
    assert_eq!(rt;
        (bank.size(), bank.free(), bank.len(&q), q.len()),
        (3, 3, 0, 0)
    );
    assert_eq!(rt; bank.add(&mut q, 10u32), Ok(()));
    assert_eq!(rt;
        (bank.size(), bank.free(), bank.len(&q), q.len()),
        (3, 2, 1, 1)
    );
    assert_eq!(rt; bank.take(&mut q), Some(10));
    assert_eq!(rt;
        (bank.size(), bank.free(), bank.len(&q), q.len()),
        (3, 3, 0, 0)
    );
}

#[test]
fn a_full_memory_hands_back(rt: HostRuntime) {
    let mut cells = three();
    let mut bank = Bank::new(&mut cells);
    let mut q = Queue::new();
    assert_eq!(rt; bank.add(&mut q, 10u32), Ok(()));
    assert_eq!(rt; bank.add(&mut q, 11), Ok(()));
    assert_eq!(rt; bank.add(&mut q, 12), Ok(()));
    assert_eq!(rt; bank.add(&mut q, 13), Err(13));
    assert_eq!(rt; (bank.free(), q.len()), (0, 3));
    assert_eq!(rt; bank.oldest(&q), Some(&10));
    assert_eq!(rt; bank.newest(&q), Some(&12));
}

#[test]
fn two_queues_share_cells(rt: HostRuntime) {
    let mut cells = three();
    let mut bank = Bank::new(&mut cells);
    let mut a = Queue::new();
    let mut b = Queue::new();
    assert_eq!(rt; bank.add(&mut a, 10u32), Ok(()));
    assert_eq!(rt; bank.add(&mut b, 20), Ok(()));
    assert_eq!(rt; bank.add(&mut a, 11), Ok(()));
    assert_eq!(rt; bank.add(&mut b, 21), Err(21));
    assert_eq!(rt; bank.take(&mut a), Some(10));
    assert_eq!(rt; bank.add(&mut b, 21), Ok(()));
    assert_eq!(rt; bank.take(&mut a), Some(11));
    assert_eq!(rt; bank.take(&mut b), Some(20));
    assert_eq!(rt; bank.take(&mut b), Some(21));
}

#[test]
fn an_empty_queue_has_no_ends(rt: HostRuntime) {
    let mut cells = three();
    let mut bank = Bank::new(&mut cells);
    let q = Queue::new();
    assert_eq!(rt; bank.rewrite_oldest(&q, 8u32), Err(8));
    assert_eq!(rt; bank.rewrite_newest(&q, 9), Err(9));
    assert!(rt; bank.oldest(&q).is_none());
    assert!(rt; bank.newest(&q).is_none());
    assert_eq!(rt; bank.free(), 3);
}

#[test]
fn the_ends_are_rewritten(rt: HostRuntime) {
    let mut cells = three();
    let mut bank = Bank::new(&mut cells);
    let mut q = Queue::new();
    assert_eq!(rt; bank.add(&mut q, 10u32), Ok(()));
    assert_eq!(rt; bank.add(&mut q, 11), Ok(()));
    assert_eq!(rt; bank.add(&mut q, 12), Ok(()));
    assert_eq!(rt; bank.rewrite_oldest(&q, 5), Ok(10));
    assert_eq!(rt; bank.rewrite_newest(&q, 6), Ok(12));
    assert_eq!(rt; bank.oldest(&q), Some(&5));
    assert_eq!(rt; bank.newest(&q), Some(&6));
    assert_eq!(rt; bank.take(&mut q), Some(5));
    assert_eq!(rt; bank.take(&mut q), Some(11));
    assert_eq!(rt; bank.take(&mut q), Some(6));
}

#[test]
fn the_oldest_is_passed_on(rt: HostRuntime) {
    let mut cells = three();
    let mut bank = Bank::new(&mut cells);
    let mut a = Queue::new();
    let mut b = Queue::new();
    assert!(rt; !bank.pass(&mut a, &mut b));
    assert_eq!(rt; bank.add(&mut a, 10u32), Ok(()));
    assert_eq!(rt; bank.add(&mut a, 11), Ok(()));
    assert_eq!(rt; bank.add(&mut b, 20), Ok(()));
    assert!(rt; bank.pass(&mut a, &mut b));
    assert_eq!(rt; (a.len(), b.len(), bank.free()), (1, 2, 0));
    assert_eq!(rt; bank.take(&mut a), Some(11));
    assert_eq!(rt; bank.take(&mut b), Some(20));
    assert_eq!(rt; bank.take(&mut b), Some(10));
}

#[test]
fn those_that_pass_are_taken_out(rt: HostRuntime) {
    let mut cells = [
        Cell::new(),
        Cell::new(),
        Cell::new(),
        Cell::new(),
        Cell::new(),
    ];
    let mut bank = Bank::new(&mut cells);
    let mut q = Queue::new();
    assert_eq!(rt; bank.add(&mut q, 1u32), Ok(()));
    assert_eq!(rt; bank.add(&mut q, 9), Ok(()));
    assert_eq!(rt; bank.add(&mut q, 2), Ok(()));
    assert_eq!(rt; bank.add(&mut q, 8), Ok(()));
    let mut out = bank.take_out(&mut q, &Below(5));
    assert_eq!(rt; (q.len(), out.len(), bank.free()), (2, 2, 1));
    assert_eq!(rt; bank.take(&mut out), Some(1));
    assert_eq!(rt; bank.take(&mut out), Some(2));
    assert_eq!(rt; bank.take(&mut q), Some(9));
    assert_eq!(rt; bank.take(&mut q), Some(8));
    assert_eq!(rt; bank.free(), 5);
}

#[test]
fn elements_are_moved(rt: HostRuntime) -> Result<(), Fail> {
    let mut cells = three();
    let mut bank = Bank::new(&mut cells);
    let mut q = Queue::new();
    assert!(rt; bank.add(&mut q, Parcel { weight: 4 }).is_ok());
    assert!(rt; bank.add(&mut q, Parcel { weight: 5 }).is_ok());
    let Some(first) = bank.take(&mut q) else {
        return Err(Fail::new("nothing came out"));
    };
    assert_eq!(rt; first.weight, 4);
    assert_eq!(rt; q.len(), 1);
    Ok(())
}

#[test]
fn a_memory_without_cells(rt: HostRuntime) {
    let mut cells = [];
    let mut bank = Bank::new(&mut cells);
    let mut q = Queue::new();
    assert_eq!(rt; (bank.size(), bank.free()), (0, 0));
    assert_eq!(rt; bank.add(&mut q, 10u32), Err(10));
    assert_eq!(rt; bank.take(&mut q), None);
}

#[test]
fn a_memory_is_made(rt: HostRuntime) -> Result<(), Fail> {
    let mut cells = memory(rt.alloc(), 2)?;
    assert_eq!(rt; cells.len(), 2);
    let mut bank = Bank::new(cells.as_mut_slice());
    let mut q = Queue::new();
    assert_eq!(rt; (bank.size(), bank.free()), (2, 2));
    assert_eq!(rt; bank.add(&mut q, 10u32), Ok(()));
    assert_eq!(rt; bank.add(&mut q, 11), Ok(()));
    assert_eq!(rt; bank.add(&mut q, 12), Err(12));
    assert_eq!(rt; bank.take(&mut q), Some(10));
    Ok(())
}
