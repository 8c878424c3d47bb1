// A spill pool: the files that hold those batches of one partition for which no memory was granted.
//
//     push ----> current file: open, in the list ----> poll
//                  |   full, or a call failed            ^
//                  v                                     |
//                finished, with something unread --------+
//                  |   nothing unread
//                  v
//                removed
//
// Batches go to the open file, and come back oldest first. A file whose size sum passes the maximum is finished, and the next
// batch opens another: so what was read can be removed while later batches are written. On every way out of a push the file is
// open in the pool's list or finished, so that no reader waits for a file that nobody will write to.
//
// Derived from spill/spill_pool.rs of datafusion-physical-plan 55.0.0 (Apache-2.0; see NOTICE). Changed: carried over to Rattle;
// files are records in a bank that is handed in with the store, drops are closes, and wakers are left out.
#![tactic(auto)]

ghost use Rattle.std.specs.Prelude.{◌≡◌, ℕ, ◌^◌, ◌<◌, not, ◌&&◌, ◌||◌, length, IfSome, IfOk, MatchResult, Some, if◌then◌else◌, nat_eq, nat_le, nat_lt};
ghost use Rattle.bank.specs.Banks.{view, size as extent, SameCells};
ghost use Rattle.bank.specs.Lists.{oldest as oldest_of, newest as newest_of};
ghost use Rattle.spill_pool.specs.Meaning.{is_spent, is_full, new_file, kind_of};
ghost use Rattle.spill_pool.specs.Calls.{Creates, Appends, Finishes, Writes, Sweeps, Settles, FilesAway, Advances, RemovesOldest, Clears, PushesOpen, PushesNew, Opens, Finds, Pushes, Polls, Closes, Removes, Chronicles, Orderly, record_of, kept_of, outcome, push_fault, poll_fault};
ghost use Rattle.spill_pool.specs.Faults.{OfCall};
ghost use Rattle.spill_pool.specs.Runs.{Runs};
ghost use Rattle.spill_pool.specs.Texts.{push_text};
ghost use Rattle.spill_pool.specs.Histories.{pushes as pushing, polls as polling, closes as closing, removes as removing};

use crate::fault::{Fault, StoreCall};
use bank::{Bank, Queue};
use refusal::Refusal;
use resources::cause::Cause;
use resources::payload::{BATCH_WORDS, Payload};
use resources::store::Store;
use std::fmt;
use std::marker::PhantomData;

pub mod fault;

// Limits. A file's batches are numbered in 32 bits; the maximum of a file's size sum is at most 2^40, and 1,024 file places are
// enough for the 32 partitions of an exchange.
const MOST_BATCHES: u64 = 1 << 32;

const MOST_MAXIMUM: u64 = 1 << 40;

const MOST_PLACES: usize = 1024;

const MOST_SINKS: u32 = 32;

// One file of a pool.
#[derive(Clone, Copy)]
pub struct FileRecord {
    // the store's number
    pub number: u32,
    // how many batches were written, and how many of them read
    pub written: u64,
    pub read: u64,
    // the summed size of the batches written
    pub sum: u64,
    pub finished: bool,
}

// What a pool keeps of its open file, the newest one.
#[derive(Clone, Copy)]
pub struct OpenFile {
    number: u32,
    written: u64,
    sum: u64,
}

// What a pool is opened with: the partition that it serves, and the size sum above which a file is finished.
#[derive(Clone, Copy)]
pub struct Setup {
    partition: usize,
    maximum: u64,
}

// A batch as it is written.
#[derive(Clone, Copy)]
struct Parcel<'a> {
    words: &'a [u64],
    size: u32,
}

// The files of one partition, of batches of the type P.
#[derive(Drop)]
pub struct SpillPool<P> {
    setup: Setup,
    // how many file places there are
    places: usize,
    // how many sinks are open
    sinks: u32,
    // the records of all files, oldest first
    files: Queue,
    // the file that is written to
    current: Option<OpenFile>,
    kind: PhantomData<P>,
}

// What is handed in with every call: the store, and the places for records of files. Pools may share both.
#[derive(Drop)]
pub struct Disk<'a, S> {
    pub store: S,
    pub places: Bank<'a, FileRecord>,
}

// What a push answers.
#[derive(Clone, Copy, PartialEq, Eq, Debug)]
pub enum Push {
    // a batch of no rows: nothing is written
    Skipped,
    // the batch is in a file; a fault where the full file could not be finished
    Kept(Option<Fault>),
    // the batch is not kept
    Failed(Fault),
}

// What a write comes to as the answer of a push.
impl From<Result<Option<Fault>, Fault>> for Push {
    ghost from_gives = { λ written push. push ≡ outcome written };

    fn from(written: Result<Option<Fault>, Fault>) -> Push {
        written.map_or_else(Push::Failed, Push::Kept)
    }
}

impl fmt::Display for Push {
    ghost output = { λ push. Some (push_text push) };

    fn fmt<W: fmt::Write>(&self, f: &mut fmt::Formatter<W>) -> fmt::Result {
        match self {
            Push::Skipped => write!(f, "skipped"),
            Push::Kept(None) => write!(f, "kept"),
            Push::Kept(Some(fault)) => write!(f, "kept, but {fault}"),
            Push::Failed(fault) => write!(f, "not kept, {fault}"),
        }
    }
}

// What a poll answers. Four names say it, where `Poll<Option<Result<P, Fault>>>` nests them.
#[derive(Drop)]
pub enum PoolPoll<P> {
    // the next batch
    Batch(P),
    // it could not be read, and the next poll reads it again
    Faulty(Fault),
    // nothing is unread, and a sink is open
    Wait,
    // nothing is unread, and nothing will be
    End,
}

// Makes a file of the store.
fn create_in<S: Store>(store: &mut S, partition: usize) -> Result<u32, Fault>
    ensures { Creates partition (S.Store.files store.old) (S.Store.files store.new) result }
{
    store.create().map_err(|cause| Fault::of_store(partition, StoreCall::Create, 0, cause))
}

// Appends to a file of the store.
fn append_to<S: Store>(
    store: &mut S,
    partition: usize,
    file: u32,
    words: &[u64],
) -> Result<(), Fault>
    ensures { Appends partition file words.now (S.Store.files store.old) (S.Store.files store.new) result }
{
    let call = StoreCall::Append;
    store
        .append(file, words)
        .map_err(|cause| Fault::of_store(partition, call, file, cause))
}

// Finishes a file of the store, and tells the fault if that fails.
fn finish<S: Store>(store: &mut S, partition: usize, file: u32) -> Option<Fault>
    ensures { Finishes partition file (S.Store.files store.old) (S.Store.files store.new) result }
{
    let call = StoreCall::Finish;
    store
        .finish(file)
        .err()
        .map(|cause| Fault::of_store(partition, call, file, cause))
}

// The file while it is written to: at the end it is open again, or left finished.
struct WriteGuard<'a> {
    file: &'a mut FileRecord,
    back: bool,
}

impl Drop for WriteGuard<'_> {
    fn drop(self)
        ensures { self.exit.0.now ≡ record self.entry.file.now { finished = not self.entry.back } }
    {
        self.file.finished = !self.back;
        let WriteGuard { file: _, back: _ } = self;
    }
}

impl FileRecord {
    // A file just created.
    fn new(number: u32) -> FileRecord
        ensures { result ≡ new_file number }
    {
        FileRecord {
            number,
            written: 0,
            read: 0,
            sum: 0,
            finished: false,
        }
    }

    // Is it finished, and nothing in it unread?
    pub fn is_spent(&self) -> bool
        ensures { result ≡ is_spent self.now }
    {
        self.finished && self.read == self.written
    }

    // Is it due to be finished?
    fn is_full(&self, setup: Setup) -> bool
        ensures { result ≡ is_full setup self.now }
    {
        self.sum > setup.maximum || self.written >= MOST_BATCHES
    }

    // What a pool keeps of it: nothing once it is finished.
    fn kept(&self) -> Option<OpenFile>
        ensures { result ≡ kept_of self.now }
    {
        (!self.finished).then_some(OpenFile {
            number: self.number,
            written: self.written,
            sum: self.sum,
        })
    }

    // Writes a batch to the file, and finishes it when it is full. After a failed append it is finished too, without a call. A guard
    // has the file meanwhile: whatever way is taken out, its end leaves the file open or finished.
    fn write<S: Store>(
        &mut self,
        store: &mut S,
        setup: Setup,
        batch: &Parcel,
    ) -> Result<Option<Fault>, Fault>
        ensures by { Writes setup batch.now.size batch.now.words.now self.old (S.Store.files store.old) self.new (S.Store.files store.new) result }
        ensures named { IfSome (push_fault (outcome result)) OfCall }
    {
        let mut guard = WriteGuard {
            file: self,
            back: false,
        };
        append_to(store, setup.partition, guard.file.number, batch.words)?;
        guard.file.written = guard.file.written.saturating_add(1);
        guard.file.sum = guard.file.sum.saturating_add(u64::from(batch.size));
        if guard.file.is_full(setup) {
            return Ok(finish(store, setup.partition, guard.file.number));
        }
        guard.back = true;
        Ok(None)
    }
}

impl OpenFile {
    // Its record, as if nothing of it was read: what a pool keeps of a file does not say how far it was.
    fn record(self) -> FileRecord
        ensures { result ≡ record_of self }
    {
        FileRecord {
            written: self.written,
            sum: self.sum,
            ..FileRecord::new(self.number)
        }
    }
}

// Removes the file from the store if it is spent, and tells whether it is.
fn sweep<S: Store>(store: &mut S, file: &FileRecord) -> bool
    ensures { Sweeps file.now (S.Store.files store.old) (S.Store.files store.new) result }
{
    let spent = file.is_spent();
    if spent {
        store.remove(file.number);
    }
    spent
}

impl<S: Store> Disk<'_, S> {
    // Writes the record of a file that was open to its place, that of the newest, which says how much of it was read; a spent file goes.
    // `advance` is its twin at the other end: one function for both would take the end's call as a closure, and a longer contract.
    fn settle(&mut self, files: &mut Queue, file: FileRecord)
        ensures law { Settles file (view self.old.places) files.old (S.Store.files self.old.store) (view self.new.places) files.new (S.Store.files self.new.store) }
        ensures same { SameCells self.old.places self.new.places }
    {
        let Some(newest) = self.places.newest(files) else {
            return;
        };
        let file = FileRecord {
            read: newest.read,
            ..file
        };
        if sweep(&mut self.store, &file) {
            let _ = self.places.take(files);
            return;
        }
        let _ = self.places.rewrite_newest(files, file);
    }

    // Adds the record of a file that was just created and written to; a spent one goes from the store.
    fn file_away(&mut self, files: &mut Queue, file: FileRecord)
        ensures law { FilesAway file (view self.old.places) files.old (S.Store.files self.old.store) (view self.new.places) files.new (S.Store.files self.new.store) }
        ensures same { SameCells self.old.places self.new.places }
    {
        if sweep(&mut self.store, &file) {
            return;
        }
        let _ = self.places.add(files, file);
    }

    // Writes the record of the oldest file, of which one more batch was read; a spent file goes.
    fn advance(&mut self, files: &mut Queue, file: FileRecord)
        ensures law { Advances file (view self.old.places) files.old (S.Store.files self.old.store) (view self.new.places) files.new (S.Store.files self.new.store) }
        ensures same { SameCells self.old.places self.new.places }
    {
        if sweep(&mut self.store, &file) {
            let _ = self.places.take(files);
            return;
        }
        let _ = self.places.rewrite_oldest(files, file);
    }

    // Removes the oldest file from the list and the store.
    fn remove_oldest(&mut self, files: &mut Queue)
        ensures law { RemovesOldest (view self.old.places) files.old (S.Store.files self.old.store) (view self.new.places) files.new (S.Store.files self.new.store) }
        ensures same { SameCells self.old.places self.new.places }
    {
        if let Some(file) = self.places.take(files) {
            self.store.remove(file.number);
        }
    }

    // Removes all files.
    fn clear(&mut self, files: &mut Queue)
        ensures law { Clears (view self.old.places) files.old (S.Store.files self.old.store) (view self.new.places) files.new (S.Store.files self.new.store) }
        ensures same { SameCells self.old.places self.new.places }
    {
        // a count and no `while let`: that a `take` makes a queue shorter is known in good order only
        for _ in 0..files.len() {
            self.remove_oldest(files);
        }
    }

    // Writes a batch to the open file.
    fn push_open(
        &mut self,
        files: &mut Queue,
        current: &mut Option<OpenFile>,
        kept: OpenFile,
        setup: Setup,
        batch: &Parcel,
    ) -> Result<Option<Fault>, Fault>
        ensures law { PushesOpen setup batch.now.size batch.now.words.now (view self.old.places) files.old kept (S.Store.files self.old.store) (view self.new.places) files.new current.new (S.Store.files self.new.store) result }
        ensures same { SameCells self.old.places self.new.places }
        ensures named { IfSome (push_fault (outcome result)) OfCall }
    {
        let mut file = kept.record();
        let written = file.write(&mut self.store, setup, batch);
        *current = file.kept();
        self.settle(files, file);
        written
    }

    // Writes a batch to a new file. A failed create leaves no file.
    fn push_new(
        &mut self,
        files: &mut Queue,
        current: &mut Option<OpenFile>,
        setup: Setup,
        batch: &Parcel,
    ) -> Result<Option<Fault>, Fault>
        ensures law { PushesNew setup batch.now.size batch.now.words.now (view self.old.places) files.old current.old (S.Store.files self.old.store) (view self.new.places) files.new current.new (S.Store.files self.new.store) result }
        ensures same { SameCells self.old.places self.new.places }
        ensures named { IfSome (push_fault (outcome result)) OfCall }
    {
        let number = create_in(&mut self.store, setup.partition)?;
        let mut file = FileRecord::new(number);
        let written = file.write(&mut self.store, setup, batch);
        *current = file.kept();
        self.file_away(files, file);
        written
    }
}

// The number of a batch as the store takes it; in good order it has 32 bits.
fn index_of(read: u64) -> u32
    ensures { read < 2 ^ 32 → result ≡ read }
{
    u32::try_from(read).unwrap_or(u32::MAX)
}

impl<P> SpillPool<P> {
    // Opens a pool without files over these places, with `sinks` sinks.
    pub fn open<S>(
        disk: &Disk<S>,
        partition: usize,
        maximum: u64,
        sinks: u32,
    ) -> Result<SpillPool<P>, Refusal>
        ensures { (w : ℕ) → Opens w (view disk.now.places) partition maximum sinks result }
    {
        let places = disk.places.size();
        if !(1..=MOST_PLACES).contains(&places) {
            return Err(Refusal::Lengths);
        }
        if maximum > MOST_MAXIMUM || !(1..=MOST_SINKS).contains(&sinks) {
            return Err(Refusal::Range);
        }
        Ok(SpillPool {
            setup: Setup { partition, maximum },
            places,
            sinks,
            files: Queue::new(),
            current: None,
            kind: PhantomData,
        })
    }

    // The oldest file, from which polls read.
    pub fn oldest<S>(&self, disk: &Disk<S>) -> Option<FileRecord>
        ensures { Finds oldest_of self.now (view disk.now.places) result }
    {
        disk.places.oldest(&self.files).copied()
    }

    // The newest file, to which pushes write while it is not finished.
    pub fn newest<S>(&self, disk: &Disk<S>) -> Option<FileRecord>
        ensures { Finds newest_of self.now (view disk.now.places) result }
    {
        disk.places.newest(&self.files).copied()
    }

    // Are these places as many as at the opening?
    fn fit<S>(&self, disk: &Disk<S>) -> Result<(), Refusal>
        ensures { MatchResult result (λ _. self.now.places ≡ extent (view disk.now.places)) (λ why. (why ≡ Refusal.Lengths) × ¬ (self.now.places ≡ extent (view disk.now.places))) }
    {
        if self.places != disk.places.size() {
            return Err(Refusal::Lengths);
        }
        Ok(())
    }

    // Nothing is unread: the end without sinks, else a wait.
    fn resting(&self) -> PoolPoll<P>
        ensures { result ≡ (if nat_eq self.now.sinks 0 then PoolPoll.End else PoolPoll.Wait) }
    {
        if self.sinks == 0 {
            PoolPoll::End
        } else {
            PoolPoll::Wait
        }
    }
}

impl<P: Payload> SpillPool<P> {
    // Appends a batch to the open file, or to a new one where none is open.
    pub fn push<S: Store>(&mut self, disk: &mut Disk<S>, batch: &P) -> Result<Push, Refusal>
        ensures law { Pushes (kind_of P.Payload) batch.now self.old (view disk.old.places) (S.Store.files disk.old.store) self.new (view disk.new.places) (S.Store.files disk.new.store) result }
        ensures history { Chronicles (pushing batch.now) (kind_of P.Payload) self.old (view disk.old.places) (S.Store.files disk.old.store) self.new (view disk.new.places) (S.Store.files disk.new.store) result }
        ensures orderly { Orderly self.old disk.old self.new disk.new result }
        ensures named { IfOk result (λ push. IfSome (push_fault push) OfCall) }
    {
        self.fit(disk)?;
        if self.sinks == 0 {
            return Err(Refusal::Closed);
        }
        if batch.rows() == 0 {
            return Ok(Push::Skipped);
        }
        let mut place = [0; BATCH_WORDS];
        batch.write(&mut place);
        let words = &place[..P::WORDS];
        let batch = Parcel {
            words,
            size: batch.size(),
        };
        let Some(kept) = self.current else {
            if disk.places.free() == 0 {
                return Err(Refusal::Files);
            }
            let written = disk.push_new(&mut self.files, &mut self.current, self.setup, &batch);
            return Ok(Push::from(written));
        };
        let written = disk.push_open(&mut self.files, &mut self.current, kept, self.setup, &batch);
        Ok(Push::from(written))
    }

    // Reads the next batch of the oldest file. Where that fails nothing moves, and the next poll reads the same batch.
    pub fn poll<S: Store>(&mut self, disk: &mut Disk<S>) -> Result<PoolPoll<P>, Refusal>
        ensures law { Polls (kind_of P.Payload) self.old (view disk.old.places) (S.Store.files disk.old.store) self.new (view disk.new.places) (S.Store.files disk.new.store) result }
        ensures history { Chronicles polling (kind_of P.Payload) self.old (view disk.old.places) (S.Store.files disk.old.store) self.new (view disk.new.places) (S.Store.files disk.new.store) result }
        ensures orderly { Orderly self.old disk.old self.new disk.new result }
        ensures named { IfOk result (λ polled. IfSome (poll_fault polled) OfCall) }
    {
        self.fit(disk)?;
        let Some(oldest) = disk.places.oldest(&self.files) else {
            return Ok(self.resting());
        };
        let mut file = *oldest;
        if file.read >= file.written {
            return Ok(self.resting());
        }
        let mut place = [0; BATCH_WORDS];
        if let Err(cause) = disk
            .store
            .read(file.number, index_of(file.read), &mut place)
        {
            let fault = Fault::of_store(self.setup.partition, StoreCall::Read, file.number, cause);
            return Ok(PoolPoll::Faulty(fault));
        }
        file.read += 1;
        disk.advance(&mut self.files, file);
        Ok(PoolPoll::Batch(P::read(&place)))
    }

    // Closes a sink. The last one finishes the open file, which is marked finished even where that fails; the fault is told.
    pub fn close_sink<S: Store>(&mut self, disk: &mut Disk<S>) -> Result<Option<Fault>, Refusal>
        ensures law { Closes (kind_of P.Payload) self.old (view disk.old.places) (S.Store.files disk.old.store) self.new (view disk.new.places) (S.Store.files disk.new.store) result }
        ensures history { Chronicles closing (kind_of P.Payload) self.old (view disk.old.places) (S.Store.files disk.old.store) self.new (view disk.new.places) (S.Store.files disk.new.store) result }
        ensures orderly { Orderly self.old disk.old self.new disk.new result }
        ensures named { IfOk result (λ told. IfSome told OfCall) }
    {
        self.fit(disk)?;
        if self.sinks == 0 {
            return Err(Refusal::Closed);
        }
        self.sinks -= 1;
        if self.sinks > 0 {
            return Ok(None);
        }
        let Some(kept) = self.current.take() else {
            return Ok(None);
        };
        let told = finish(&mut disk.store, self.setup.partition, kept.number);
        let file = FileRecord {
            finished: true,
            ..kept.record()
        };
        disk.settle(&mut self.files, file);
        Ok(told)
    }

    // Removes all files, for a stream that closes.
    pub fn remove_all<S: Store>(&mut self, disk: &mut Disk<S>) -> Result<(), Refusal>
        ensures law { Removes (kind_of P.Payload) self.old (view disk.old.places) (S.Store.files disk.old.store) self.new (view disk.new.places) (S.Store.files disk.new.store) result }
        ensures history { Chronicles removing (kind_of P.Payload) self.old (view disk.old.places) (S.Store.files disk.old.store) self.new (view disk.new.places) (S.Store.files disk.new.store) result }
        ensures orderly { Orderly self.old disk.old self.new disk.new result }
    {
        self.fit(disk)?;
        disk.clear(&mut self.files);
        self.current = None;
        Ok(())
    }
}

// The worked runs.
pub fn runs_stand() -> u8
    ensures { Runs }
{
    0
}
