// What a pool does on examples: each refusal, both sides of each limit, and a session in which each call of the store fails in turn.
use bank::{Bank, Cell, memory};
use refusal::Refusal;
use resources::cause::Cause;
use resources::notice::Notice;
use resources::payload::BATCH_WORDS;
use resources::store::Store;
use resources::tripping::Tripping;
use spill_pool::fault::{Fault, Layer, StoreCall};
use spill_pool::{Disk, FileRecord, PoolPoll, Push, SpillPool, runs_stand};
use std::alloc::Global;
use std::process::Abort;
use std::test::Fail;
use stores::block::BlockStore;
use stores::node::Node;

// A block store of eight blocks.
fn blocks(heap: Global) -> Result<BlockStore, Fail> {
    let words = vec![in heap; 0; 8 * BATCH_WORDS]?;
    let nodes = vec![in heap; Node::new(); 8]?;
    Ok(BlockStore::new(words, nodes)?)
}

// Such a store, and these places for the records of files.
fn disk(heap: Global, cells: &mut [Cell<FileRecord>]) -> Result<Disk<'_, BlockStore>, Fail> {
    Ok(Disk {
        store: blocks(heap)?,
        places: Bank::new(cells),
    })
}

fn notice(id: u64, size: u32) -> Notice {
    Notice { id, rows: 1, size }
}

// Pushes a notice, and notes it if it is kept.
fn push_one<S: Store>(
    pool: &mut SpillPool<Notice>,
    disk: &mut Disk<S>,
    id: u64,
    size: u32,
    kept: &mut Vec<u64>,
) -> Result<(), Fail> {
    if let Push::Kept(_) = pool.push(disk, &notice(id, size))? {
        kept.push(id)?;
    }
    Ok(())
}

// Polls once, and notes what comes. Tells whether it is the end.
fn poll_one<S: Store>(
    pool: &mut SpillPool<Notice>,
    disk: &mut Disk<S>,
    given: &mut Vec<u64>,
) -> Result<bool, Fail> {
    let polled = pool.poll(disk)?;
    if let PoolPoll::Batch(notice) = &polled {
        given.push(notice.id)?;
    }
    Ok(matches!(polled, PoolPoll::End))
}

// A session of six pushes into three files, with polls between them: two files are full, one is finished by the close.
fn session<S: Store>(
    pool: &mut SpillPool<Notice>,
    disk: &mut Disk<S>,
    kept: &mut Vec<u64>,
    given: &mut Vec<u64>,
) -> Result<bool, Fail> {
    push_one(pool, disk, 1, 10, kept)?;
    push_one(pool, disk, 2, 11, kept)?;
    poll_one(pool, disk, given)?;
    push_one(pool, disk, 3, 5, kept)?;
    push_one(pool, disk, 4, 16, kept)?;
    push_one(pool, disk, 5, 1, kept)?;
    poll_one(pool, disk, given)?;
    push_one(pool, disk, 6, 1, kept)?;
    pool.close_sink(disk)?;
    for _ in 0..32 {
        if poll_one(pool, disk, given)? {
            return Ok(true);
        }
    }
    Ok(false)
}

// Are there no files? Then as many as a store may have can be made.
fn is_bare(store: &mut BlockStore) -> bool {
    (0..256).all(|_| store.create().is_ok())
}

// The session with one failing call: what is kept is read, in order and once, and no file is left.
fn one_trip(rt: &impl Abort, heap: Global, trip: u64) -> Result<(), Fail> {
    let trips = [trip];
    let store = Tripping::new(blocks(heap)?, &trips).map_err(|(_, why)| why)?;
    let mut cells = memory(heap, 4)?;
    let mut disk = Disk {
        store,
        places: Bank::new(cells.as_mut_slice()),
    };
    let mut pool = SpillPool::open(&disk, 3, 20, 1)?;
    let mut kept = Vec::new(heap);
    let mut given = Vec::new(heap);
    assert!(rt; session(&mut pool, &mut disk, &mut kept, &mut given)?);
    assert_eq!(rt; kept.as_slice(), given.as_slice());
    assert!(rt; pool.oldest(&disk).is_none());
    let Disk { store, places: _ } = disk;
    let mut below = store.into_below();
    assert!(rt; is_bare(&mut below));
    Ok(())
}

#[test]
fn every_call_fails_in_turn(rt: HostRuntime) -> Result<(), Fail> {
    for trip in 1..24 {
        one_trip(&rt, rt.alloc(), trip)?;
    }
    Ok(())
}

// Why a pool is not opened over `n` places, if it is not.
fn unopened(heap: Global, n: usize, maximum: u64, sinks: u32) -> Result<Option<Refusal>, Fail> {
    let mut cells = memory(heap, n)?;
    let disk = disk(heap, cells.as_mut_slice())?;
    Ok(SpillPool::<Notice>::open(&disk, 0, maximum, sinks).err())
}

#[test]
fn openings(rt: HostRuntime) -> Result<(), Fail> {
    let heap = rt.alloc();
    assert_eq!(rt; unopened(heap, 0, 0, 1)?, Some(Refusal::Lengths));
    assert_eq!(rt; unopened(heap, 1, 0, 1)?, None);
    assert_eq!(rt; unopened(heap, 1024, 1099511627776, 32)?, None);
    assert_eq!(rt;
        unopened(heap, 1025, 1099511627777, 0)?,
        Some(Refusal::Lengths)
    );
    assert_eq!(rt; unopened(heap, 1, 1099511627777, 1)?, Some(Refusal::Range));
    assert_eq!(rt; unopened(heap, 1, 0, 0)?, Some(Refusal::Range));
    assert_eq!(rt; unopened(heap, 1, 0, 33)?, Some(Refusal::Range));
    Ok(())
}

// The number of the notice that a poll gives, if it gives one.
fn given<S: Store>(
    pool: &mut SpillPool<Notice>,
    disk: &mut Disk<S>,
) -> Result<Option<u64>, Refusal> {
    Ok(match pool.poll(disk)? {
        PoolPoll::Batch(notice) => Some(notice.id),
        _ => None,
    })
}

// What a poll answers, batches and faults aside.
#[derive(Clone, Copy, PartialEq, Eq, Debug)]
enum Kind {
    Something,
    Wait,
    End,
}

fn poll_kind<S: Store>(pool: &mut SpillPool<Notice>, disk: &mut Disk<S>) -> Result<Kind, Refusal> {
    Ok(match pool.poll(disk)? {
        PoolPoll::Batch(_) | PoolPoll::Faulty(_) => Kind::Something,
        PoolPoll::Wait => Kind::Wait,
        PoolPoll::End => Kind::End,
    })
}

// One place: the maximum is passed strictly, a second file wants a place, and a read frees it.
#[test]
fn places_run_out(rt: HostRuntime) -> Result<(), Fail> {
    let heap = rt.alloc();
    let mut cells = memory(heap, 1)?;
    let mut disk = disk(heap, cells.as_mut_slice())?;
    let mut pool = SpillPool::open(&disk, 0, 100, 1)?;
    assert_eq!(rt; pool.push(&mut disk, &notice(1, 100)), Ok(Push::Kept(None)));
    let file = pool.newest(&disk).ok_or("no file")?;
    assert!(rt; !file.finished && !file.is_spent());
    assert_eq!(rt; pool.push(&mut disk, &notice(2, 1)), Ok(Push::Kept(None)));
    let file = pool.newest(&disk).ok_or("no file")?;
    assert!(rt; file.finished && file.written == 2 && file.sum == 101);
    assert_eq!(rt;
        pool.push(
            &mut disk,
            &Notice {
                id: 3,
                rows: 0,
                size: 1,
            },
        ),
        Ok(Push::Skipped)
    );
    assert_eq!(rt; pool.push(&mut disk, &notice(3, 1)), Err(Refusal::Files));
    assert_eq!(rt; given(&mut pool, &mut disk), Ok(Some(1)));
    assert_eq!(rt; given(&mut pool, &mut disk), Ok(Some(2)));
    assert_eq!(rt; pool.push(&mut disk, &notice(3, 1)), Ok(Push::Kept(None)));
    Ok(())
}

// Places of another number are refused by every call, and so is a call without sinks.
#[test]
fn refusals(rt: HostRuntime) -> Result<(), Fail> {
    let heap = rt.alloc();
    let mut cells = memory(heap, 2)?;
    let mut others = memory(heap, 3)?;
    let mut other = disk(heap, others.as_mut_slice())?;
    let mut disk = disk(heap, cells.as_mut_slice())?;
    let mut pool = SpillPool::open(&disk, 0, 100, 1)?;
    assert_eq!(rt; pool.push(&mut other, &notice(1, 1)), Err(Refusal::Lengths));
    assert_eq!(rt; poll_kind(&mut pool, &mut other), Err(Refusal::Lengths));
    assert_eq!(rt; pool.close_sink(&mut other), Err(Refusal::Lengths));
    assert_eq!(rt; pool.remove_all(&mut other), Err(Refusal::Lengths));
    assert_eq!(rt; pool.close_sink(&mut disk), Ok(None));
    assert_eq!(rt; pool.close_sink(&mut disk), Err(Refusal::Closed));
    assert_eq!(rt; pool.push(&mut disk, &notice(1, 1)), Err(Refusal::Closed));
    assert_eq!(rt; poll_kind(&mut pool, &mut disk), Ok(Kind::End));
    Ok(())
}

// Two pools share a disk: one that removes all its files leaves the other's.
#[test]
fn pools_share_a_disk(rt: HostRuntime) -> Result<(), Fail> {
    let heap = rt.alloc();
    let mut cells = memory(heap, 4)?;
    let mut disk = disk(heap, cells.as_mut_slice())?;
    let mut one = SpillPool::open(&disk, 0, 0, 1)?;
    let mut two = SpillPool::open(&disk, 1, 0, 2)?;
    for id in 1..3 {
        assert_eq!(rt; one.push(&mut disk, &notice(id, 1)), Ok(Push::Kept(None)));
        assert_eq!(rt;
            two.push(&mut disk, &notice(id + 10, 1)),
            Ok(Push::Kept(None))
        );
    }
    assert_eq!(rt; one.remove_all(&mut disk), Ok(()));
    assert!(rt; one.oldest(&disk).is_none() && disk.places.free() == 2);
    assert_eq!(rt; given(&mut two, &mut disk), Ok(Some(11)));
    assert_eq!(rt; given(&mut two, &mut disk), Ok(Some(12)));
    assert_eq!(rt; poll_kind(&mut two, &mut disk), Ok(Kind::Wait));
    assert!(rt; disk.places.free() == 4 && is_bare(&mut disk.store));
    Ok(())
}

// Faults by their numbers.
#[test]
fn faults(rt: HostRuntime) {
    let feed = Fault::of_feed(3, 255);
    assert!(rt; feed.layer.number() == 1 && feed.call.number() == 0 && feed.file == 0);
    assert!(rt; feed.file() == None && feed.partition == 3 && feed.cause == 255);
    let create = Fault::of_store(0, StoreCall::Create, 7, Cause::Device);
    let read = Fault::of_store(0, StoreCall::Read, 7, Cause::Device);
    assert!(rt; create.file == 7 && create.file() == None && read.file() == Some(7));
    let finish = Fault::of_store(0, StoreCall::Finish, 9, Cause::Device);
    assert!(rt; finish.layer.number() == 2 && finish.call.number() == 3);
    assert!(rt; Layer::Store.number() == 2 && StoreCall::Create.number() == 1);
    assert!(rt; StoreCall::Append.number() == 2 && StoreCall::Finish.number() == 3);
    assert!(rt; StoreCall::Read.number() == 4 && runs_stand() == 0);
}

// Does the fault print as that text?
fn reads_as(heap: Global, fault: Fault, text: &str) -> Result<bool, Fail> {
    let printed = format!(in heap; "{fault}")?;
    Ok(printed.as_str() == text)
}

// Faults, and what a write comes to as the answer of a push, in words.
#[test]
fn words(rt: HostRuntime) -> Result<(), Fail> {
    let heap = rt.alloc();
    let append = Fault::of_store(0, StoreCall::Append, 3, Cause::NoSpace);
    let finish = Fault::of_store(0, StoreCall::Finish, 5, Cause::Device);
    let create = Fault::of_store(0, StoreCall::Create, 0, Cause::Device);
    let read = Fault::of_store(0, StoreCall::Read, 1, Cause::Misuse);
    let none = Fault::of_store(0, StoreCall::NoCall, 0, Cause::Device);
    assert!(rt; reads_as(heap, Fault::of_feed(3, 255), "the feed fails, cause 255")?);
    assert!(rt; reads_as(heap, create, "create fails, cause 3")?);
    assert!(rt; reads_as(heap, append, "append to file 3 fails, cause 1")?);
    assert!(rt; reads_as(heap, finish, "finish of file 5 fails, cause 3")?);
    assert!(rt; reads_as(heap, read, "read of file 1 fails, cause 2")?);
    assert!(rt; reads_as(heap, none, "the store fails, cause 3")?);
    let call = format!(in heap; "{}, {}", StoreCall::NoCall, StoreCall::Append)?;
    assert_eq!(rt; call.as_str(), "no call, append");
    assert_eq!(rt; Push::from(Ok(None)), Push::Kept(None));
    let answers = format!(in heap;
        "{}; {}; {}; {}",
        Push::Skipped,
        Push::from(Ok(None)),
        Push::from(Ok(Some(finish))),
        Push::from(Err(create))
    )?;
    assert_eq!(rt;
        answers.as_str(),
        "skipped; kept; kept, but finish of file 5 fails, cause 3; not kept, create fails, cause 3"
    );
    Ok(())
}

// Does the fault name the store's call of that number, and a file, but for create?
fn names(fault: Fault, call: u8) -> bool {
    fault.layer == Layer::Store
        && fault.call.number() == call
        && fault.cause == Cause::Device.number()
        && fault.file().is_some() == (call != StoreCall::Create.number())
}

// Each call of the store fails once, by its place among the calls: create, append, finish of a full file, read, finish at the close.
#[test]
fn told_faults(rt: HostRuntime) -> Result<(), Fail> {
    let heap = rt.alloc();
    let trips = [1, 3, 6, 7, 11];
    let store = Tripping::new(blocks(heap)?, &trips).map_err(|(_, why)| why)?;
    let mut cells = memory(heap, 4)?;
    let mut disk = Disk {
        store,
        places: Bank::new(cells.as_mut_slice()),
    };
    let mut pool = SpillPool::open(&disk, 0, 20, 1)?;
    let Push::Failed(create) = pool.push(&mut disk, &notice(1, 10))? else {
        return Err(Fail::new("a failed create"));
    };
    let Push::Failed(append) = pool.push(&mut disk, &notice(2, 10))? else {
        return Err(Fail::new("a failed append"));
    };
    let Push::Kept(Some(finish)) = pool.push(&mut disk, &notice(3, 21))? else {
        return Err(Fail::new("a failed finish"));
    };
    let PoolPoll::Faulty(read) = pool.poll(&mut disk)? else {
        return Err(Fail::new("a failed read"));
    };
    assert!(rt; names(create, 1) && names(append, 2) && names(finish, 3) && names(read, 4));
    assert_eq!(rt; given(&mut pool, &mut disk), Ok(Some(3)));
    assert_eq!(rt; pool.push(&mut disk, &notice(4, 1)), Ok(Push::Kept(None)));
    let Some(last) = pool.close_sink(&mut disk)? else {
        return Err(Fail::new("a failed finish at the close"));
    };
    assert!(rt; names(last, 3));
    Ok(())
}
