// The two delivered stores: files of batches over words that are handed in.
//
//     BlockStore   | 64 words | 64 words | 64 words | ..        one batch to a block, freed blocks serve again
//     LogStore     | file n w .. | file n w .. | 0 ..           one record behind another, until the last file goes
//
// Both keep their files in a directory: which file has which batches, and where each batch lies.
// Two types and no one type over a layout: only the block store picks a free block, and only the log store has an end that restarts.
#![tactic(auto)]

pub mod block;
pub(crate) mod directory;
pub mod log;
pub(crate) mod memory;
pub mod node;

// The bounds of the stores.
pub mod blocks {
    pub use crate::directory::{FILES_MOST, STORE_WORDS};
}
