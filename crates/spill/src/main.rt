// Spill: notices go through a spill pool to the files of a store, and come back, while some calls of the store fail.
//
//     push --> pool --> tripping --> block store or log store
//     poll <---/
//
// The same calls are made over a block store and over a log store, each just too small for four notices. Each call is a line with
// its answer; below it stands what became of the pool's files: which one opened, was finished, or went.
#![tactic(auto)]

use anyhow::anyhow;
use bank::{Bank, memory};
use refusal::Refusal;
use resources::notice::Notice;
use resources::payload::BATCH_WORDS;
use resources::store::Store;
use resources::tripping::Tripping;
use spill_pool::fault::Fault;
use spill_pool::{Disk, FileRecord, PoolPoll, SpillPool};
use std::{fmt, io};
use stores::block::BlockStore;
use stores::log::{LogStore, RECORD_LEAST};
use stores::node::Node;

// Blocks for three notices.
const BLOCKS: usize = 3;

// A run for three notices of five words each, and one word short of a fourth.
const RUN_WORDS: usize = 19;

// A file whose size sum is above this is finished.
const MAXIMUM: u64 = 100;

// Places for the records of files.
const PLACES: usize = 2;

// The calls at which the device fails, counted from 1: a read, a create, two appends and a finish.
const TRIPS: [u64; 5] = [10, 12, 15, 20, 23];

// What is asked of the pool.
#[derive(Clone, Copy)]
enum Call {
    Push(Notice),
    Poll,
    CloseSink,
}

// A notice of one row.
fn push(id: u64, size: u32) -> Call {
    Call::Push(Notice { id, rows: 1, size })
}

// The first calls: a file is rotated, the store is full, a read fails.
fn filling() -> [Call; 9] {
    [
        push(101, 60),
        push(102, 40),
        push(103, 1),
        Call::Poll,
        push(104, 10),
        Call::Poll,
        Call::Poll,
        Call::Poll,
        Call::Poll,
    ]
}

// The next: a notice of no rows, a failed create, a failed append before unread notices and one behind a drained file, a failed finish.
fn failing() -> [Call; 13] {
    [
        Call::Push(Notice {
            id: 105,
            rows: 0,
            size: 10,
        }),
        push(106, 10),
        push(106, 10),
        push(107, 10),
        push(108, 10),
        Call::Poll,
        Call::Poll,
        push(109, 10),
        push(110, 10),
        Call::CloseSink,
        Call::Poll,
        Call::Poll,
        push(111, 10),
    ]
}

// What a poll answers, in words.
#[derive(Drop)]
struct Polled(PoolPoll<Notice>);

impl fmt::Display for Polled {
    fn fmt<W: fmt::Write>(&self, f: &mut fmt::Formatter<W>) -> fmt::Result {
        match &self.0 {
            PoolPoll::Batch(notice) => write!(f, "notice {}", notice.id),
            PoolPoll::Faulty(fault) => write!(f, "{fault}"),
            PoolPoll::Wait => write!(f, "wait"),
            PoolPoll::End => write!(f, "end"),
        }
    }
}

// What a close answers, in words.
#[derive(Drop)]
struct Closed(Option<Fault>);

impl fmt::Display for Closed {
    fn fmt<W: fmt::Write>(&self, f: &mut fmt::Formatter<W>) -> fmt::Result {
        match self.0 {
            None => write!(f, "closed"),
            Some(fault) => write!(f, "closed, but {fault}"),
        }
    }
}

// Says what a call answers, or why it is refused.
fn say<T: fmt::Display + Drop>(rt: &HostRuntime, answer: Result<T, Refusal>) -> io::Result<()> {
    match answer {
        Ok(answer) => println!(rt; "{answer}"),
        Err(why) => println!(rt; "{why}"),
    }
}

// The pool's files, as far as a call can change them.
#[derive(Clone, Copy)]
struct Ends {
    oldest: Option<FileRecord>,
    newest: Option<FileRecord>,
}

// Is it the file of that number?
fn is_file(file: Option<FileRecord>, number: u32) -> bool {
    file.is_some_and(|file| file.number == number)
}

// A pool over a store, whose calls are said.
#[derive(Drop)]
struct Session<'r, 'a, S> {
    rt: &'r HostRuntime,
    pool: SpillPool<Notice>,
    disk: Disk<'a, S>,
}

impl<S: Store> Session<'_, '_, S> {
    // Looks at the pool's files.
    fn ends(&self) -> Ends {
        Ends {
            oldest: self.pool.oldest(&self.disk),
            newest: self.pool.newest(&self.disk),
        }
    }

    // Says what became of the files since that look at them.
    fn say_changes(&self, before: Ends) -> io::Result<()> {
        let rt = self.rt;
        let after = self.ends();
        if let Some(file) = before.oldest
            && !is_file(after.oldest, file.number)
        {
            println!(rt; "      file {} goes", file.number)?;
        }
        let Some(file) = after.newest else {
            return Ok(());
        };
        let number = file.number;
        if !is_file(before.newest, number) {
            println!(rt; "      file {number} opens")?;
        }
        let was_finished = before
            .newest
            .is_some_and(|old| old.number == number && old.finished);
        if file.finished && !was_finished {
            println!(rt; "      file {number} is finished")?;
        }
        Ok(())
    }

    // Makes one call.
    fn perform(&mut self, call: Call) -> io::Result<()> {
        let rt = self.rt;
        let before = self.ends();
        match call {
            Call::Push(notice) => {
                print!(rt; "  push {}, size {}: ", notice.id, notice.size)?;
                say(rt, self.pool.push(&mut self.disk, &notice))?;
            }
            Call::Poll => {
                print!(rt; "  poll: ")?;
                say(rt, self.pool.poll(&mut self.disk).map(Polled))?;
            }
            Call::CloseSink => {
                print!(rt; "  close: ")?;
                say(rt, self.pool.close_sink(&mut self.disk).map(Closed))?;
            }
        }
        self.say_changes(before)
    }
}

// Makes all calls on a pool over that store.
fn spill<S: Store + Drop>(rt: &HostRuntime, store: S) -> anyhow::Result<()> {
    let Ok(store) = Tripping::new(store, &TRIPS) else {
        return Err(anyhow!("too many trips"));
    };
    let mut cells = memory(rt.alloc(), PLACES)?;
    let disk = Disk {
        store,
        places: Bank::new(cells.as_mut_slice()),
    };
    let Ok(pool) = SpillPool::open(&disk, 0, MAXIMUM, 1) else {
        return Err(anyhow!("no pool"));
    };
    let mut session = Session { rt, pool, disk };
    for call in filling().into_iter().chain(failing()) {
        session.perform(call)?;
    }
    Ok(())
}

// Through a block store. `through_log` is its twin: one function for both would take the store's maker, and be no shorter.
fn through_blocks(rt: &HostRuntime) -> anyhow::Result<()> {
    println!(rt; "a block store of {BLOCKS} blocks")?;
    let words = vec![in rt.alloc(); 0; BLOCKS * BATCH_WORDS]?;
    let nodes = vec![in rt.alloc(); Node::new(); BLOCKS]?;
    let Ok(store) = BlockStore::new(words, nodes) else {
        return Err(anyhow!("no block store"));
    };
    spill(rt, store)
}

// Through a log store.
fn through_log(rt: &HostRuntime) -> anyhow::Result<()> {
    println!(rt; "a log store of {RUN_WORDS} words")?;
    let words = vec![in rt.alloc(); 0; RUN_WORDS]?;
    let nodes = vec![in rt.alloc(); Node::new(); RUN_WORDS / RECORD_LEAST]?;
    let Ok(store) = LogStore::new(words, nodes) else {
        return Err(anyhow!("no log store"));
    };
    spill(rt, store)
}

fn main(rt: HostRuntime) -> anyhow::Result<()> {
    through_blocks(&rt)?;
    through_log(&rt)
}
