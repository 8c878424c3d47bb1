// What the crate does on examples: each refusal and cause, and both sides of each limit.
use refusal::Refusal;
use resources::cause::Cause;
use resources::ceiling::Ceiling;
use resources::notice::Notice;
use resources::payload::{Payload, round_trip};
use resources::receipt::{Left, Receipt, Seen};
use resources::reservation::{Change, LIMIT_MOST, Reservation, TenantChange, apply};
use resources::runs::{Answer, Batch, Call, perform, run};
use resources::store::Store;
use resources::tenant::Tenant;
use resources::tenants::Tenants;
use resources::tripping::Tripping;
use std::alloc::Global;
use std::array;
use std::test::Fail;
use stores::block::BlockStore;
use stores::log::LogStore;
use stores::node::Node;

#[test]
fn payloads(rt: HostRuntime) {
    let mut place = [9; 64];
    let notice = Notice {
        id: 18446744073709551615,
        rows: 4294967295,
        size: 7,
    };
    assert_eq!(rt; round_trip(&notice, &mut place), notice);
    assert!(rt;
        place[0] == 18446744073709551615 && place[1] == 4294967295 && place[2] == 7 && place[3] == 9
    );
    assert!(rt; Notice::WORDS == 3 && notice.rows() == 4294967295 && notice.size() == 7);
    place[1] = 4294967296 + 5;
    assert!(rt;
        <Notice as Payload>::read(&place).rows == 5,
        "the low bits count"
    );
    let seen = Receipt::Seen(Seen { person: 1, line: 2 });
    let left = Receipt::Left(Left { person: 3 });
    assert_eq!(rt; round_trip(&seen, &mut place), seen);
    assert!(rt; place[0] == 0 && place[1] == 1 && place[2] == 2);
    assert_eq!(rt; round_trip(&left, &mut place), left);
    assert!(rt; place[0] == 1 && place[1] == 3 && place[2] == 0);
    assert!(rt; seen.size() == 16 && left.size() == 8 && seen.rows() == 1 && Receipt::WORDS == 3);
    place[0] = 77;
    assert_eq!(rt;
        <Receipt as Payload>::read(&place),
        left,
        "any other first word is one who left"
    );
}

#[test]
fn numbers(rt: HostRuntime) {
    assert!(rt;
        Cause::NoSpace.number() == 1 && Cause::Misuse.number() == 2 && Cause::Device.number() == 3
    );
}

#[test]
fn texts(rt: HostRuntime) -> Result<(), Fail> {
    let heap = rt.alloc();
    let notice = Notice {
        id: 101,
        rows: 3,
        size: 20,
    };
    assert_eq!(rt;
        notice.to_string(heap)?.as_str(),
        "notice 101 (rows 3, size 20)"
    );
    let seen = Receipt::Seen(Seen {
        person: 7,
        line: 101,
    });
    assert_eq!(rt; seen.to_string(heap)?.as_str(), "person 7 saw line 101");
    let left = Receipt::Left(Left { person: 8 });
    assert_eq!(rt; left.to_string(heap)?.as_str(), "person 8 left");
    assert_eq!(rt; Cause::NoSpace.to_string(heap)?.as_str(), "cause 1");
    assert_eq!(rt; Cause::Misuse.to_string(heap)?.as_str(), "cause 2");
    assert_eq!(rt; Cause::Device.to_string(heap)?.as_str(), "cause 3");
    Ok(())
}

#[test]
fn ceilings(rt: HostRuntime) -> Result<(), Fail> {
    assert_eq!(rt; Ceiling::new(LIMIT_MOST + 1).err(), Some(Refusal::Range));
    let mut top = Ceiling::new(LIMIT_MOST)?;
    assert!(rt; top.headroom() == LIMIT_MOST && top.held() == 0);
    assert!(rt;
        top.grow(LIMIT_MOST) && !top.grow(1) && top.grow(0),
        "all of it, and no more"
    );
    assert!(rt; !top.shrink(LIMIT_MOST + 1) && top.shrink(LIMIT_MOST) && !top.shrink(1));
    let mut ten = Ceiling::new(10)?;
    assert!(rt; !ten.grow(11) && ten.held() == 0);
    apply(
        &mut ten,
        &[
            Change::Grow(4),
            Change::Grow(7),
            Change::Grow(6),
            Change::Shrink(3),
            Change::Shrink(8),
        ],
    );
    assert!(rt;
        ten.held() == 7 && ten.headroom() == 3,
        "held and headroom stay 10"
    );
    Ok(())
}

#[test]
fn sharing(rt: HostRuntime) -> Result<(), Fail> {
    assert_eq!(rt; Tenants::new(LIMIT_MOST + 1).err(), Some(Refusal::Range));
    assert!(rt; Tenants::new(LIMIT_MOST).is_ok());
    let mut table = Tenants::new(10)?;
    assert!(rt; Tenant::new(&mut table, 16).is_err(), "there are sixteen");
    {
        let mut last = Tenant::new(&mut table, 15)?;
        assert!(rt; last.grow(6) && last.held() == 6 && last.headroom() == 4);
        assert!(rt; !last.shrink(7) && last.shrink(1));
        assert!(rt;
            !last.grow(6) && last.grow(5) && last.headroom() == 0,
            "all of it, and no more"
        );
        assert!(rt; !last.shrink(11) && last.shrink(5));
    }
    table.apply(&[
        TenantChange {
            tenant: 0,
            change: Change::Grow(6),
        },
        TenantChange {
            tenant: 0,
            change: Change::Grow(5),
        },
        TenantChange {
            tenant: 16,
            change: Change::Shrink(5),
        },
    ]);
    assert!(rt;
        table.held_by(0) == 5
            && table.held_by(15) == 5
            && table.held_by(16) == 0
            && table.taken() == 10
    );
    Ok(())
}

fn block_store(heap: Global, blocks: usize) -> Result<BlockStore, Fail> {
    if blocks > 4096 {
        return Err(Fail::new("too many"));
    }
    Ok(BlockStore::new(
        vec![in heap; 0; blocks * 64]?,
        vec![in heap; Node::new(); blocks]?,
    )?)
}

fn log_store(heap: Global, words: usize) -> Result<LogStore, Fail> {
    Ok(LogStore::new(
        vec![in heap; 9; words]?,
        vec![in heap; Node::new(); words / 3]?,
    )?)
}

#[test]
fn lengths(rt: HostRuntime) -> Result<(), Fail> {
    let heap = rt.alloc();
    assert_eq!(rt;
        BlockStore::new(vec![in heap; 0; 128]?, vec![in heap; Node::new(); 1]?).err(),
        Some(Refusal::Lengths)
    );
    assert_eq!(rt;
        BlockStore::new(vec![in heap; 0; 262145]?, vec![in heap; Node::new(); 4096]?).err(),
        Some(Refusal::Lengths)
    );
    assert_eq!(rt;
        LogStore::new(vec![in heap; 0; 9]?, vec![in heap; Node::new(); 2]?).err(),
        Some(Refusal::Lengths)
    );
    assert_eq!(rt;
        LogStore::new(
            vec![in heap; 0; 262145]?,
            vec![in heap; Node::new(); 87381]?,
        )
        .err(),
        Some(Refusal::Lengths)
    );
    Ok(())
}

#[test]
fn largest(rt: HostRuntime) -> Result<(), Fail> {
    let heap = rt.alloc();
    assert!(rt;
        BlockStore::new(vec![in heap; 0; 262144]?, vec![in heap; Node::new(); 4096]?).is_ok()
    );
    assert!(rt;
        LogStore::new(
            vec![in heap; 0; 262144]?,
            vec![in heap; Node::new(); 87381]?,
        )
        .is_ok()
    );
    assert_eq!(rt;
        BlockStore::new(vec![in heap; 0; 128]?, vec![in heap; Node::new(); 3]?).err(),
        Some(Refusal::Lengths)
    );
    assert_eq!(rt;
        LogStore::new(vec![in heap; 0; 9]?, vec![in heap; Node::new(); 4]?).err(),
        Some(Refusal::Lengths)
    );
    Ok(())
}

#[test]
fn no_memory(rt: HostRuntime) -> Result<(), Fail> {
    let mut blocks = block_store(rt.alloc(), 0)?;
    let f = blocks.create()?;
    assert_eq!(rt;
        blocks.append(f, &[1]),
        Err(Cause::NoSpace),
        "there is no block"
    );
    let mut log = log_store(rt.alloc(), 0)?;
    assert!(rt; log.words().is_empty(), "no word, and no zero word");
    let g = log.create()?;
    assert_eq!(rt; log.append(g, &[1]), Err(Cause::NoSpace));
    Ok(())
}

#[test]
fn blocks(rt: HostRuntime) -> Result<(), Fail> {
    let mut store = block_store(rt.alloc(), 2)?;
    let mut place = [9; 64];
    let f = store.create()?;
    let g = store.create()?;
    assert!(rt; f == 1 && g == 2);
    assert_eq!(rt; store.append(f, &[]), Err(Cause::Misuse));
    assert_eq!(rt; store.append(f, &[5; 65]), Err(Cause::Misuse));
    assert_eq!(rt; store.append(3, &[5]), Err(Cause::Misuse));
    store.append(f, &[5])?;
    store.append(g, &[6; 64])?;
    assert_eq!(rt;
        store.append(f, &[7]),
        Err(Cause::NoSpace),
        "both blocks are taken"
    );
    assert_eq!(rt; store.read(f, 1, &mut place), Err(Cause::Misuse));
    assert_eq!(rt; store.read(f, 0, &mut place), Ok(1));
    assert!(rt; place[0] == 5 && place[1] == 9, "the rest stays");
    assert_eq!(rt; store.read(g, 0, &mut place), Ok(64));
    assert!(rt; place[0] == 6 && place[63] == 6);
    store.finish(f)?;
    assert_eq!(rt; store.finish(f), Err(Cause::Misuse));
    assert_eq!(rt; store.append(f, &[1]), Err(Cause::Misuse), "it is finished");
    store.remove(f);
    store.remove(f);
    assert_eq!(rt; store.read(f, 0, &mut place), Err(Cause::Misuse));
    store.append(g, &[8, 9])?;
    assert_eq!(rt;
        store.read(g, 1, &mut place),
        Ok(2),
        "a freed block serves again"
    );
    assert!(rt; place[0] == 8 && place[1] == 9);
    assert_eq!(rt; store.create(), Ok(3), "numbers do not come again soon");
    Ok(())
}

#[test]
fn files(rt: HostRuntime) -> Result<(), Fail> {
    let mut store = block_store(rt.alloc(), 1)?;
    for _ in 0..255 {
        let _ = store.create()?;
    }
    assert_eq!(rt; store.create(), Ok(256));
    assert_eq!(rt; store.create(), Err(Cause::NoSpace), "256 files are in use");
    store.remove(7);
    assert_eq!(rt; store.create(), Ok(257));
    Ok(())
}

#[test]
fn logs(rt: HostRuntime) -> Result<(), Fail> {
    let mut store = log_store(rt.alloc(), 8)?;
    let mut place = [9; 64];
    assert!(rt;
        store.words() == [0, 9, 9, 9, 9, 9, 9, 9].as_slice(),
        "a zero word begins an empty run"
    );
    let f = store.create()?;
    store.append(f, &[5])?;
    assert!(rt; store.words() == [1, 1, 5, 0, 9, 9, 9, 9].as_slice());
    assert_eq!(rt;
        store.append(f, &[1, 2, 3, 4]),
        Err(Cause::NoSpace),
        "one word short"
    );
    store.append(f, &[6, 7, 8])?;
    assert!(rt;
        store.words() == [1, 1, 5, 1, 3, 6, 7, 8].as_slice(),
        "exactly full, without room for the zero word"
    );
    assert_eq!(rt; store.append(f, &[1]), Err(Cause::NoSpace));
    assert_eq!(rt; store.append(f, &[]), Err(Cause::Misuse));
    assert_eq!(rt; store.read(f, 1, &mut place), Ok(3));
    assert!(rt; place[0] == 6 && place[2] == 8 && place[3] == 9);
    let g = store.create()?;
    store.remove(f);
    assert_eq!(rt;
        store.append(g, &[1]),
        Err(Cause::NoSpace),
        "a file is left"
    );
    store.finish(g)?;
    assert_eq!(rt; store.finish(g), Err(Cause::Misuse));
    store.remove(g);
    assert!(rt;
        store.words() == [0, 1, 5, 1, 3, 6, 7, 8].as_slice(),
        "the run restarts"
    );
    Ok(())
}

#[test]
fn log_lengths(rt: HostRuntime) -> Result<(), Fail> {
    let mut store = log_store(rt.alloc(), 70)?;
    let f = store.create()?;
    assert_eq!(rt; store.append(f, &[5; 65]), Err(Cause::Misuse));
    assert_eq!(rt; store.append(2, &[5]), Err(Cause::Misuse));
    store.append(f, &[5; 64])?;
    let words = store.words();
    assert!(rt; words.len() == 70);
    assert!(rt;
        words[0] == 1 && words[1] == 64 && words[65] == 5 && words[66] == 0 && words[67] == 9
    );
    store.append(f, &[6])?;
    assert!(rt;
        store.words().len() == 70 && store.words()[69] == 0,
        "the zero word is the last"
    );
    let mut place = [9; 64];
    assert_eq!(rt; store.read(f, 0, &mut place), Ok(64));
    assert!(rt; place[0] == 5 && place[63] == 5);
    assert_eq!(rt; store.read(f, 2, &mut place), Err(Cause::Misuse));
    assert_eq!(rt;
        store.append(f, &[6]),
        Err(Cause::NoSpace),
        "one word is left"
    );
    Ok(())
}

#[test]
fn log_files(rt: HostRuntime) -> Result<(), Fail> {
    let mut store = log_store(rt.alloc(), 3)?;
    for _ in 0..255 {
        let _ = store.create()?;
    }
    assert_eq!(rt; store.create(), Ok(256));
    assert_eq!(rt; store.create(), Err(Cause::NoSpace), "256 files are in use");
    store.remove(256);
    assert_eq!(rt; store.create(), Ok(257));
    Ok(())
}

#[test]
fn trip_lists(rt: HostRuntime) -> Result<(), Fail> {
    let Ok(mut store) = Tripping::new(block_store(rt.alloc(), 1)?, &[1; 64]) else {
        return Err(Fail::new("64 trips may be listed"));
    };
    assert_eq!(rt; store.create(), Err(Cause::Device), "call 1 trips");
    assert_eq!(rt; store.create(), Ok(1), "and was not passed on");
    let Err((mut below, why)) = Tripping::new(store.into_below(), &[3; 65]) else {
        return Err(Fail::new("65 trips are too many"));
    };
    assert_eq!(rt; why, Refusal::Range);
    assert_eq!(rt; below.create(), Ok(2), "the store comes back");
    let Ok(mut again) = Tripping::new(below, &[2]) else {
        return Err(Fail::new("one trip may be listed"));
    };
    let mut place = [9; 64];
    again.append(1, &[7])?;
    assert_eq!(rt; again.read(1, 0, &mut place), Err(Cause::Device));
    assert!(rt; place[0] == 9, "a failed read leaves the place");
    assert_eq!(rt; again.read(1, 0, &mut place), Ok(1));
    assert!(rt; place[0] == 7);
    Ok(())
}

#[test]
fn trips(rt: HostRuntime) -> Result<(), Fail> {
    let below = block_store(rt.alloc(), 4)?;
    let Ok(mut store) = Tripping::new(below, &[2, 4]) else {
        return Err(Fail::new("two trips are few"));
    };
    let f = store.create()?;
    assert_eq!(rt; store.append(f, &[1]), Err(Cause::Device), "call 2 trips");
    store.remove(99);
    store.append(f, &[1])?;
    assert_eq!(rt;
        store.finish(f),
        Err(Cause::Device),
        "removes are not counted, a tripped call is"
    );
    store.finish(f)?;
    let mut place = [0; 64];
    assert_eq!(rt; store.read(f, 0, &mut place), Ok(1));
    let mut again = store.into_below();
    assert_eq!(rt; again.read(f, 1, &mut place), Err(Cause::Misuse));
    Ok(())
}

#[test]
fn runs(rt: HostRuntime) -> Result<(), Fail> {
    let mut store = log_store(rt.alloc(), 100)?;
    let calls = [
        Call::Create,
        Call::Append(
            1,
            Batch {
                words: [4; 64],
                length: 2,
            },
        ),
        Call::Read(1, 0),
        Call::Finish(1),
        Call::Remove(1),
        Call::Read(1, 0),
    ];
    let mut answers = [Ok(Answer::Done); 6];
    run(&mut store, &calls, &mut answers);
    assert!(rt;
        matches!(answers[0], Ok(Answer::Number(1))) && matches!(answers[5], Err(Cause::Misuse))
    );
    let Ok(Answer::Words(batch)) = answers[2] else {
        return Err(Fail::new("a batch"));
    };
    assert!(rt;
        batch.length == 2 && batch.words[0] == 4 && batch.words[1] == 4 && batch.words[2] == 0
    );
    Ok(())
}

// What was read has its words, 64 of them too: the slice up to its length is there.
#[test]
fn whole_batches(rt: HostRuntime) -> Result<(), Fail> {
    let mut store = log_store(rt.alloc(), 100)?;
    let batch = Batch {
        words: array::from_fn(|i| 100 + i as u64),
        length: 64,
    };
    let calls = [Call::Create, Call::Append(1, batch), Call::Read(1, 0)];
    let mut answers = [Ok(Answer::Done); 3];
    run(&mut store, &calls, &mut answers);
    let Ok(Answer::Words(read)) = answers[2] else {
        return Err(Fail::new("a batch"));
    };
    let words = &read.words[..read.length];
    assert!(rt; words.len() == 64 && words[0] == 100 && words[63] == 163);
    let Ok(Answer::Words(again)) = perform(&mut store, Call::Read(1, 0)) else {
        return Err(Fail::new("a batch"));
    };
    assert!(rt; &again.words[..again.length] == words);
    Ok(())
}
