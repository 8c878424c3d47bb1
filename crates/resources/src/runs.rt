// Lists of calls on any store: whatever they are, every read gives what the append of that number in that file gave.
ghost use Rattle.std.specs.Prelude.{◌≡◌, ℕ, min, [], length, take, drop, All, IfOk};
ghost use Rattle.resources.specs.History.{event, history, held_by, appends, Faithful, Happens, Asked, Ran, Fits};

use crate::cause::Cause;
use crate::payload::BATCH_WORDS;
use crate::store::Store;

// A batch: its words are the first `length` of `words`, 64 at most. Owned and copied, so that a call needs no other storage.
#[derive(Clone, Copy, PartialEq, Eq, Debug)]
pub struct Batch {
    pub words: [u64; 64],
    pub length: usize,
}

// A call of a store.
#[derive(Clone, Copy, PartialEq, Eq, Debug)]
pub enum Call {
    Create,
    Append(u32, Batch),
    Finish(u32),
    Read(u32, u32),
    Remove(u32),
}

// What a call that the store did answers.
#[derive(Clone, Copy, PartialEq, Eq, Debug)]
pub enum Answer {
    // the number of a new file
    Number(u32),
    // of append, finish and remove
    Done,
    // what was read
    Words(Batch),
}

// Makes one call.
pub fn perform<S: Store>(store: &mut S, call: Call) -> Result<Answer, Cause>
    ensures happens { Happens (S.Store.files store.old) (event call result) (S.Store.files store.new) }
    ensures asked { Asked S.Store.steps store.old call result store.new }
    ensures fits { IfOk result Fits }
{
    match call {
        Call::Create => Ok(Answer::Number(store.create()?)),
        Call::Append(file, batch) => {
            let n = batch.length.min(BATCH_WORDS);
            store.append(file, &batch.words[..n]).map(|()| Answer::Done)
        }
        Call::Finish(file) => store.finish(file).map(|()| Answer::Done),
        Call::Read(file, batch) => {
            let mut words = [0; 64];
            let length = store.read(file, batch, &mut words)?;
            Ok(Answer::Words(Batch { words, length }))
        }
        Call::Remove(file) => {
            store.remove(file);
            Ok(Answer::Done)
        }
    }
}

// Makes the calls in their order, and writes their answers, while there are places for answers; further places stay as they were.
pub fn run<S: Store>(store: &mut S, calls: &[Call], answers: &mut [Result<Answer, Cause>])
    ensures asked { let n = min (length calls.now) (length answers.old) in Ran S.Store.steps store.old (take n calls.now) (take n answers.new) store.new }
    ensures faithful { let n = min (length calls.now) (length answers.old) in Faithful (held_by (S.Store.files store.old)) (history [] (take n calls.now) (take n answers.new)) }
    ensures holds { let n = min (length calls.now) (length answers.old) in (file : ℕ) → held_by (S.Store.files store.new) file ≡ appends (held_by (S.Store.files store.old)) (history [] (take n calls.now) (take n answers.new)) file }
    ensures fit { let n = min (length calls.now) (length answers.old) in All (λ r. IfOk r Fits) (take n answers.new) }
    ensures rest { let n = min (length calls.now) (length answers.old) in drop n answers.new ≡ drop n answers.old }
{
    let n = calls.len().min(answers.len());
    for (i, call) in calls[..n].iter().enumerate() {
        // By index: after a zip with `iter_mut` a proof knows nothing of the answers.
        answers[i] = perform(store, *call);
    }
}
