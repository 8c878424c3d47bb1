// A store that only writes on: each batch in one run of words, which restarts when the last file is removed.
ghost use Rattle.stores.specs.Chains.{Run};

use crate::directory::Directory;
use crate::memory::Memory;
use crate::node::Node;
use refusal::Refusal;
use resources::cause::Cause;
use resources::store::Store;

// The words of a record before those of its batch: the file's number and the length.
pub const RECORD_HEAD: usize = 2;

// The shortest record: its head and a batch of one word.
pub const RECORD_LEAST: usize = RECORD_HEAD + 1;

#[derive(Drop)]
pub struct LogStore {
    // a node for each record that the run can have
    pub(crate) dir: Directory,
    pub(crate) memory: Memory,
    // where the next record begins
    pub(crate) end: usize,
    ghost run: { Run dir.nodes.items dir.entries memory.words.items end },
}

impl Store for LogStore {
    ghost use Rattle.stores.specs.Stores.{log_files, LogSteps};

    ghost files = { log_files };

    ghost steps = { LogSteps };

    fn create(&mut self) -> Result<u32, Cause> {
        self.dir.create()
    }

    fn append(&mut self, file: u32, words: &[u64]) -> Result<(), Cause> {
        let i = self.dir.open_for(file, words)?;
        let next = self.end + RECORD_HEAD + words.len();
        if next > self.memory.words.len() {
            return Err(Cause::NoSpace);
        }
        self.memory.record(self.end, file, words);
        self.dir.shift(0, i, self.end + RECORD_HEAD, words.len());
        self.end = next;
        Ok(())
    }

    fn finish(&mut self, file: u32) -> Result<(), Cause> {
        self.dir.finish(file)
    }

    fn read(&mut self, file: u32, batch: u32, place: &mut [u64; 64]) -> Result<usize, Cause> {
        let b = self.dir.locate(file, batch)?;
        let Node { start, length, .. } = self.dir.nodes[b];
        self.memory.fetch(start, length, place);
        Ok(length)
    }

    fn remove(&mut self, file: u32) {
        if self.dir.remove(file) && self.dir.count == 0 {
            self.end = 0;
            self.memory.mark(0);
        }
    }
}

impl LogStore {
    ghost use Rattle.std.specs.Prelude.{◌≡◌, vec_len, MatchResult, OnOk};
    ghost use Rattle.refusal.specs.declared.Refusal.TheVariants.{Lengths};
    ghost use Rattle.stores.specs.Stores.{log_words, LogOpened, Fitting, Unfitting};

    // A store without files over these words, all of them the run, and a node for each record that finds room.
    pub fn new(words: Vec<u64>, nodes: Vec<Node>) -> Result<LogStore, Refusal>
        ensures opened { MatchResult result (λ s. LogOpened words.items s) (λ e. (e ≡ Lengths) × Unfitting (vec_len words) (vec_len nodes)) }
        ensures fits { OnOk result (Fitting (vec_len words) (vec_len nodes)) }
    {
        let dir = Directory::new(nodes, words.len(), RECORD_LEAST)?;
        let mut memory = Memory { words };
        memory.mark(0);
        Ok(LogStore {
            dir,
            memory,
            end: 0,
        })
    }

    // The words of the run, and behind them a zero word, if it fits, and words of no meaning.
    pub fn words(&self) -> &[u64]
        ensures { result.now ≡ log_words self.now }
    {
        self.memory.words.as_slice()
    }
}
