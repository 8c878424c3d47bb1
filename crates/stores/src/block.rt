// A store of blocks: one batch to a block of 64 words, and freed blocks serve again.
ghost use Rattle.std.specs.Prelude.{◌*◌, ◌≤◌, length};
ghost use Rattle.stores.specs.Chains.{Short};

use crate::directory::Directory;
use crate::memory::Memory;
use crate::node::Node;
use refusal::Refusal;
use resources::cause::Cause;
use resources::payload::BATCH_WORDS;
use resources::store::Store;

#[derive(Drop)]
pub struct BlockStore {
    // a node for each block
    pub(crate) dir: Directory,
    // block b begins at the word 64 b
    pub(crate) memory: Memory,
    ghost room: { length dir.nodes.items * 64 ≤ length memory.words.items },
    ghost short: { Short dir.nodes.items },
}

impl Store for BlockStore {
    ghost use Rattle.stores.specs.Stores.{block_files, BlockSteps};

    ghost files = { block_files };

    ghost steps = { BlockSteps };

    fn create(&mut self) -> Result<u32, Cause> {
        self.dir.create()
    }

    fn append(&mut self, file: u32, words: &[u64]) -> Result<(), Cause> {
        let i = self.dir.open_for(file, words)?;
        let free = self.dir.entries[0];
        if free.len == 0 {
            return Err(Cause::NoSpace);
        }
        self.memory.lay(free.last * BATCH_WORDS, words);
        self.dir.shift(0, i, 0, words.len());
        Ok(())
    }

    fn finish(&mut self, file: u32) -> Result<(), Cause> {
        self.dir.finish(file)
    }

    fn read(&mut self, file: u32, batch: u32, place: &mut [u64; 64]) -> Result<usize, Cause> {
        let b = self.dir.locate(file, batch)?;
        let n = self.dir.nodes[b].length;
        self.memory.fetch(b * BATCH_WORDS, n, place);
        Ok(n)
    }

    fn remove(&mut self, file: u32) {
        self.dir.remove(file);
    }
}

impl BlockStore {
    ghost use Rattle.std.specs.Prelude.{◌≡◌, vec_len, MatchResult, OnOk};
    ghost use Rattle.refusal.specs.declared.Refusal.TheVariants.{Lengths};
    ghost use Rattle.stores.specs.Stores.{BlockOpened, Fit, Unfit};

    // A store without files over these words: a block for each 64 words, 4,096 at most, and a node for each block.
    pub fn new(words: Vec<u64>, nodes: Vec<Node>) -> Result<BlockStore, Refusal>
        ensures opened { MatchResult result (λ s. BlockOpened (vec_len words) s) (λ e. (e ≡ Lengths) × Unfit (vec_len words) (vec_len nodes)) }
        ensures fits { OnOk result (Fit (vec_len words) (vec_len nodes)) }
    {
        let dir = Directory::new(nodes, words.len(), BATCH_WORDS)?;
        Ok(BlockStore {
            dir,
            memory: Memory { words },
        })
    }
}
