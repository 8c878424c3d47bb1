// A store that fails on purpose: at listed calls the device fails, and every other call is passed on to the store below.
ghost use Rattle.std.specs.Prelude.{◌≡◌, ◌<◌, ◌≤◌, if◌then◌else◌, length, MatchResult};
ghost use Rattle.resources.specs.declared.cause.Cause.TheVariants.{Device};
ghost use Rattle.refusal.specs.declared.Refusal.TheVariants.{Range};
ghost use Rattle.resources.specs.Files.{CreateLawful, create_after, AppendLawful, append_after, FinishLawful, finish_after, ReadLawful, read_place, remove_after, create as creating, append as appending, finish as finishing, read as reading, remove as removing, numbered, finished, done};
ghost use Rattle.resources.specs.Trips.{next_call, listed, TripSteps};

use crate::cause::Cause;
use crate::store::Store;
use refusal::Refusal;

// How many calls may be listed.
pub const TRIPS_MOST: usize = 64;

#[derive(Drop)]
pub struct Tripping<'a, S> {
    below: S,
    // the numbers of the calls that fail
    trips: &'a [u64],
    // how many calls were made, removes aside
    calls: u64,
}

impl<'a, S> Tripping<'a, S> {
    // The calls are counted from 1. More than 64 listed calls are refused, and the store is handed back.
    // It comes back in a pair with the refusal: a struct of the two would say no more.
    pub fn new(below: S, trips: &'a [u64]) -> Result<Tripping<'a, S>, (S, Refusal)>
        ensures { MatchResult result (λ t. (t.below ≡ below) × (t.trips.now ≡ trips.now) × (t.calls ≡ 0) × (length trips.now ≤ 64)) (λ e. (e.0 ≡ below) × (e.1 ≡ Range) × (64 < length trips.now)) }
    {
        if trips.len() > TRIPS_MOST {
            return Err((below, Refusal::Range));
        }
        Ok(Tripping {
            below,
            trips,
            calls: 0,
        })
    }

    // The store below.
    pub fn into_below(self) -> S
        ensures { result ≡ self.entry.below }
    {
        self.below // the list and the count go
    }

    // Counts a call, and fails where it is listed.
    fn count(&mut self) -> Result<(), Cause>
        ensures answer { result ≡ (if listed (next_call self.old.calls) self.old.trips.now then Err Device else Ok tt) }
        ensures calls { self.new.calls ≡ next_call self.old.calls }
        ensures trips { self.new.trips.now ≡ self.old.trips.now }
        ensures below { self.new.below ≡ self.old.below }
    {
        self.calls = self.calls.saturating_add(1);
        if self.trips.contains(&self.calls) {
            return Err(Cause::Device);
        }
        Ok(())
    }
}

impl<'a, S: Store> Store for Tripping<'a, S> {
    ghost files = { λ t. S.Store.files t.below };

    ghost steps = { TripSteps S.Store.steps };

    fn create(&mut self) -> Result<u32, Cause> {
        self.count()?;
        self.below.create()
    }

    fn append(&mut self, file: u32, words: &[u64]) -> Result<(), Cause> {
        self.count()?;
        self.below.append(file, words)
    }

    fn finish(&mut self, file: u32) -> Result<(), Cause> {
        self.count()?;
        self.below.finish(file)
    }

    fn read(&mut self, file: u32, batch: u32, place: &mut [u64; 64]) -> Result<usize, Cause> {
        self.count()?;
        self.below.read(file, batch, place)
    }

    fn remove(&mut self, file: u32) {
        self.below.remove(file);
    }
}
