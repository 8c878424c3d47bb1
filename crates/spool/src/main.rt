// Spool: what a ceiling grants is held in memory, what it does not grant goes to a file of a store, and all is read back.
//
//     batch --> ceiling --granted--> memory ------------------\
//                  \---not granted--> tripping --> store ------+--> read back, in the order in which they came
//
// The same notices and receipts go through a block store and through a log store. Both are too small for all, and both stand below a
// tripping store, so that some calls fail. Each action is said in a line.
#![tactic(auto)]

use anyhow::anyhow;
use resources::cause::Cause;
use resources::ceiling::Ceiling;
use resources::notice::Notice;
use resources::payload::{BATCH_WORDS, Payload};
use resources::receipt::{Left, Receipt, Seen};
use resources::reservation::Reservation;
use resources::store::Store;
use resources::tripping::Tripping;
use std::fmt::Display;
use std::io;
use stores::block::BlockStore;
use stores::log::{LogStore, RECORD_LEAST};
use stores::node::Node;

// Fewer blocks than notices that need one.
const BLOCKS: usize = 3;

// A run that four notices fill exactly.
const RUN_WORDS: usize = 20;

// The ceiling: two of the larger notices, or three receipts.
const LIMIT: u64 = 40;

// The calls at which the device fails, counted from 1.
const TRIPS: [u64; 6] = [1, 4, 8, 11, 12, 16];

// How often a call is made before it is given up.
const TRIES: usize = 3;

// Where a batch is kept.
#[derive(Clone, Copy)]
enum Place {
    Memory,
    // the batch of that number in the file
    File(u32),
}

// Makes a call until it succeeds, and says why it fails: only a device may do better the next time, and after TRIES calls it is given up.
fn insist<T: Drop, F: FnMut() -> Result<T, Cause>>(
    rt: &HostRuntime,
    name: &str,
    mut call: F,
) -> io::Result<Option<T>>
    requires { F.IsAlwaysCallable call }
{
    for _ in 0..TRIES {
        match call() {
            Ok(answer) => return Ok(Some(answer)),
            Err(cause) => {
                println!(rt; "    {name} fails, {cause}")?;
                if cause != Cause::Device {
                    return Ok(None);
                }
            }
        }
    }
    Ok(None)
}

// Batches on their way: to memory where the ceiling grants it, and else to a file of the store.
#[derive(Drop)]
struct Reel<'a, S> {
    rt: &'a HostRuntime,
    ceiling: &'a mut Ceiling,
    store: &'a mut S,
    file: u32,
    // how many batches were appended to the file
    batches: u32,
}

impl<'a, S: Store> Reel<'a, S> {
    // Makes the file.
    fn create(
        rt: &'a HostRuntime,
        ceiling: &'a mut Ceiling,
        store: &'a mut S,
    ) -> anyhow::Result<Reel<'a, S>> {
        let Some(file) = insist(rt, "create", || store.create())? else {
            return Err(anyhow!("no file"));
        };
        println!(rt; "    file {file} is made")?;
        Ok(Reel {
            rt,
            ceiling,
            store,
            file,
            batches: 0,
        })
    }

    // Appends a batch, and tells its number in the file.
    fn append(&mut self, words: &[u64]) -> io::Result<Option<u32>> {
        let file = self.file;
        let store = &mut *self.store;
        if insist(self.rt, "append", || store.append(file, words))?.is_none() {
            return Ok(None);
        }
        let batch = self.batches;
        self.batches = batch.saturating_add(1);
        Ok(Some(batch))
    }

    // Finishes the file.
    fn finish(&mut self) -> io::Result<()> {
        let rt = self.rt;
        let file = self.file;
        let store = &mut *self.store;
        if insist(rt, "finish", || store.finish(file))?.is_some() {
            println!(rt; "    file {file} is finished, batches {}", self.batches)?;
        }
        Ok(())
    }

    // Reads a batch of the file.
    fn read<P: Payload>(&mut self, batch: u32) -> io::Result<Option<P>> {
        let file = self.file;
        let store = &mut *self.store;
        let mut place = [0; BATCH_WORDS];
        let length = insist(self.rt, "read", || store.read(file, batch, &mut place))?;
        Ok(length.map(|_| P::read(&place)))
    }

    // Removes the file.
    fn remove(self) -> io::Result<()> {
        let Reel {
            rt,
            store,
            file,
            ..
        } = self;
        store.remove(file);
        println!(rt; "    file {file} is removed")
    }

    // Holds the batch in memory if the ceiling grants its size, and else appends it to the file.
    fn keep<P: Payload + Display>(&mut self, batch: &P) -> io::Result<Option<Place>> {
        let rt = self.rt;
        if self.ceiling.grow(u64::from(batch.size())) {
            println!(rt; "    {batch}: in memory, held {}", self.ceiling.held())?;
            return Ok(Some(Place::Memory));
        }
        let mut place = [0; BATCH_WORDS];
        batch.write(&mut place);
        let number = self.append(&place[..P::WORDS])?;
        match number {
            Some(number) => println!(rt; "    {batch}: batch {number} of the file")?,
            None => println!(rt; "    {batch}: finds no place")?,
        }
        Ok(number.map(Place::File))
    }

    // Reads a batch back from where it went. What it held of memory is given back.
    fn read_back<P: Payload + Display + Drop>(
        &mut self,
        batch: &P,
        place: Option<Place>,
    ) -> io::Result<()> {
        let rt = self.rt;
        match place {
            Some(Place::Memory) => {
                self.ceiling.shrink(u64::from(batch.size()));
                println!(rt; "    from memory: {batch}, held {}", self.ceiling.held())
            }
            Some(Place::File(number)) => match self.read::<P>(number)? {
                Some(batch) => println!(rt; "    from the file: {batch}"),
                None => println!(rt; "    batch {number} is not read"),
            },
            None => println!(rt; "    {batch} was not kept"),
        }
    }
}

// Spools a list of batches and reads it back.
fn spool<P: Payload + Display + Drop, S: Store>(
    rt: &HostRuntime,
    store: &mut S,
    ceiling: &mut Ceiling,
    batches: &[P],
) -> anyhow::Result<()> {
    let mut reel = Reel::create(rt, ceiling, store)?;
    let mut places = Vec::new(rt.alloc());
    for batch in batches {
        places.push(reel.keep(batch)?)?;
    }
    reel.finish()?;
    for (batch, place) in batches.iter().zip(places.iter()) {
        reel.read_back(batch, *place)?;
    }
    Ok(reel.remove()?)
}

// Spools the notices, and then the receipts, under one ceiling.
fn spool_all<S: Store>(rt: &HostRuntime, store: &mut S) -> anyhow::Result<()> {
    let notices = [
        Notice {
            id: 101,
            rows: 3,
            size: 20,
        },
        Notice {
            id: 102,
            rows: 1,
            size: 20,
        },
        Notice {
            id: 103,
            rows: 9,
            size: 1,
        },
        Notice {
            id: 104,
            rows: 2,
            size: 300,
        },
        Notice {
            id: 105,
            rows: 4,
            size: 41,
        },
        Notice {
            id: 106,
            rows: 7,
            size: 0,
        },
        Notice {
            id: 107,
            rows: 5,
            size: 5,
        },
    ];
    let receipts = [
        Receipt::Seen(Seen {
            person: 7,
            line: 101,
        }),
        Receipt::Left(Left { person: 8 }),
        Receipt::Seen(Seen {
            person: 9,
            line: 102,
        }),
        Receipt::Left(Left { person: 7 }),
        Receipt::Seen(Seen {
            person: 8,
            line: 103,
        }),
    ];
    let Ok(mut ceiling) = Ceiling::new(LIMIT) else {
        return Err(anyhow!("the limit is too high"));
    };
    println!(rt; "  notices, under a ceiling of {LIMIT}")?;
    spool(rt, store, &mut ceiling, &notices)?;
    println!(rt; "  receipts, under a ceiling of {LIMIT}")?;
    spool(rt, store, &mut ceiling, &receipts)
}

// Spools through a store that trips, and hands the store back.
fn spool_tripping<S: Store + Drop>(rt: &HostRuntime, store: S) -> anyhow::Result<S> {
    let Ok(mut tripping) = Tripping::new(store, &TRIPS) else {
        return Err(anyhow!("too many trips"));
    };
    spool_all(rt, &mut tripping)?;
    Ok(tripping.into_below())
}

// Through a block store. `through_log` is its twin: one function for both would take the store's maker, and be no shorter.
fn through_blocks(rt: &HostRuntime) -> anyhow::Result<()> {
    println!(rt; "a block store of {BLOCKS} blocks")?;
    let words = vec![in rt.alloc(); 0; BLOCKS * BATCH_WORDS]?;
    let nodes = vec![in rt.alloc(); Node::new(); BLOCKS]?;
    let Ok(store) = BlockStore::new(words, nodes) else {
        return Err(anyhow!("no block store"));
    };
    let _ = spool_tripping(rt, store)?;
    Ok(())
}

// Through a log store.
fn through_log(rt: &HostRuntime) -> anyhow::Result<()> {
    println!(rt; "a log store of {RUN_WORDS} words")?;
    let words = vec![in rt.alloc(); 0; RUN_WORDS]?;
    let nodes = vec![in rt.alloc(); Node::new(); RUN_WORDS / RECORD_LEAST]?;
    let Ok(store) = LogStore::new(words, nodes) else {
        return Err(anyhow!("no log store"));
    };
    let store = spool_tripping(rt, store)?;
    print!(rt; "  the words at the end:")?;
    for word in store.words() {
        print!(rt; " {word}")?;
    }
    Ok(println!(rt; "")?)
}

fn main(rt: HostRuntime) -> anyhow::Result<()> {
    through_blocks(&rt)?;
    through_log(&rt)
}
