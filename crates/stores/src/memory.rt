// The words that a store lays its batches in.
ghost use Rattle.std.specs.Prelude.{◌≡◌, ◌+◌, ◌≤◌, ◌++◌, length, take, drop};
ghost use Rattle.std.proofs.Math.Seq.{paste};
ghost use Rattle.stores.specs.Stores.{zeroed, recorded};

use crate::log::RECORD_HEAD;

#[derive(Drop)]
pub(crate) struct Memory {
    pub(crate) words: Vec<u64>,
}

impl Memory {
    // Writes the words from `at` on.
    pub(crate) fn lay(&mut self, at: usize, batch: &[u64])
        requires { at + length batch.now ≤ length self.old.words.items }
        ensures words { self.new.words.items ≡ paste self.old.words.items at batch.now (length batch.now) }
    {
        self.words[at..at + batch.len()].copy_from_slice(batch);
    }

    // Copies `n` words from `at` on to the front of the place.
    pub(crate) fn fetch(&self, at: usize, n: usize, place: &mut [u64; 64])
        requires { (at + n ≤ length self.now.words.items) × (n ≤ 64) × (length place.old ≡ 64) }
        ensures { place.new ≡ take n (drop at self.now.words.items) ++ drop n place.old }
    {
        place[..n].copy_from_slice(&self.words[at..at + n]);
    }

    // Writes a zero word at the place, if it is there.
    pub(crate) fn mark(&mut self, at: usize)
        ensures { self.new.words.items ≡ zeroed self.old.words.items at }
    {
        if let Some(word) = self.words.get_mut(at) {
            *word = 0;
        }
    }

    // Writes a record from `at` on, and a zero word behind it, if it fits.
    pub(crate) fn record(&mut self, at: usize, file: u32, batch: &[u64])
        requires { at + 2 + length batch.now ≤ length self.old.words.items }
        ensures { self.new.words.items ≡ recorded self.old.words.items at file batch.now }
    {
        let n = batch.len();
        self.words[at] = u64::from(file);
        self.words[at + 1] = n as u64;
        self.lay(at + RECORD_HEAD, batch);
        self.mark(at + RECORD_HEAD + n);
    }
}
