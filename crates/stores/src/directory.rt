// The files of a store, and where their batches lie: what the block store and the log store have in common.
ghost use Rattle.std.specs.Prelude.{◌≡◌, ◌==◌, ℕ, ◌<◌, length, position};
ghost use Rattle.stores.specs.declared.node.Entry.{Entry};
ghost use Rattle.stores.specs.Chains.{Order, Blank, node, free_node, renewed, next_after};

use crate::node::{Entry, Node};
use refusal::Refusal;
use resources::cause::Cause;
use resources::payload::BATCH_WORDS;

// The most words that a store may have: 4,096 blocks.
pub const STORE_WORDS: usize = 262144;

// How many files may be in use.
pub const FILES_MOST: usize = 256;

// What is free, and a file each.
const ENTRIES: usize = FILES_MOST + 1;

#[derive(Drop)]
pub(crate) struct Directory {
    // a node for each batch
    pub(crate) nodes: Vec<Node>,
    // First what is free, then the files in use in the order of their creation, then entries for files to come.
    // A fixed table, and no map or `Vec`: the memory is handed in and fixed, and all entries are in use, those to come for their numbers.
    pub(crate) entries: [Entry; ENTRIES],
    // how many files are in use
    pub(crate) count: usize,
    // The number for the next entry that is freed.
    // No `Option<u32>`: 2^32 is the end of the numbers, and `u32::try_from` tells whether one is left.
    pub(crate) next: u64,
    ghost order: { Order nodes.items entries count next },
}

// Makes every node free.
fn free_all(nodes: &mut Vec<Node>)
    ensures long { length nodes.new.items ≡ length nodes.old.items }
    ensures free { (b : ℕ) → b < length nodes.old.items → node nodes.new.items b ≡ free_node b }
{
    for (b, node) in nodes.iter_mut().enumerate() {
        *node = Node::free(b);
    }
}

// The entries of a table without files: `n` nodes are free, and the numbers begin at 1.
fn blank_table(n: usize) -> [Entry; ENTRIES]
    ensures { Blank n result }
{
    let mut entries = [Entry::spare(0); ENTRIES];
    for (i, entry) in entries.iter_mut().enumerate() {
        *entry = Entry::spare(i as u32);
    }
    entries[0] = Entry {
        last: n.saturating_sub(1),
        len: n,
        ..Entry::spare(0)
    };
    entries
}

// The first place with the number.
fn position_of(entries: &[Entry], number: u32) -> Option<usize>
    ensures { result ≡ position (λ (e : Entry). e.number == number) entries.now }
{
    entries.iter().position(|entry| entry.number == number)
}

// The number for an entry that is freed, and the next after it: a new one, or, when 32 bits have no new one left, the one that it had.
fn renew(next: u64, old: u32) -> (u32, u64)
    ensures { (result.0 ≡ renewed next old) × (result.1 ≡ next_after next) }
{
    match u32::try_from(next) {
        Ok(new) => (new, next + 1),
        Err(_) => (old, next),
    }
}

impl Directory {
    ghost use Rattle.std.specs.Prelude.{◌-◌, ◌≤◌, ◌≢◌, if◌then◌else◌, nat_eq, nat_lt, slice_set, MatchResult, OnOk};
    ghost use Rattle.refusal.specs.declared.Refusal.TheVariants.{Lengths};
    ghost use Rattle.stores.specs.Chains.{entry, far_of, jump_of, shifted_nodes, shifted_entries, Cleared, closed_up, InUse, Sought, SoughtOpen, Located};
    ghost use Rattle.stores.specs.Filed.{Opened, FitFor, UnfitFor, Creates, Finishes, Removes, OpensFor};

    // A directory without files over these nodes, if there is one for each `each` of the words.
    pub(crate) fn new(mut nodes: Vec<Node>, words: usize, each: usize) -> Result<Directory, Refusal>
        requires { 0 < each }
        ensures opened { MatchResult result (Opened (length nodes.items)) (λ e. (e ≡ Lengths) × UnfitFor each words (length nodes.items)) }
        ensures fits { OnOk result (FitFor each words (length nodes.items)) }
    {
        if words > STORE_WORDS || nodes.len() != words / each {
            return Err(Refusal::Lengths);
        }
        free_all(&mut nodes);
        let entries = blank_table(nodes.len());
        Ok(Directory {
            nodes,
            entries,
            count: 0,
            next: ENTRIES as u64,
        })
    }

    // The place of the file in the table.
    fn seek(&self, file: u32) -> Option<usize>
        ensures { Sought self.now.entries self.now.count file result }
    {
        let before = position_of(&self.entries[1..self.count + 1], file)?;
        Some(before + 1)
    }

    // The place of the file in the table, if it is open.
    fn open(&self, file: u32) -> Result<usize, Cause>
        ensures { SoughtOpen self.now.entries self.now.count file result }
    {
        match self.seek(file) {
            Some(i) if self.entries[i].live => Ok(i),
            _ => Err(Cause::Misuse),
        }
    }

    // The place of the file in the table, if the batch may be appended to it.
    pub(crate) fn open_for(&self, file: u32, batch: &[u64]) -> Result<usize, Cause>
        ensures { OpensFor self.now file batch.now result }
    {
        if batch.is_empty() || batch.len() > BATCH_WORDS {
            return Err(Cause::Misuse);
        }
        self.open(file)
    }

    // The node of a batch, if the file has as many.
    pub(crate) fn locate(&self, file: u32, batch: u32) -> Result<usize, Cause>
        ensures { Located self.now.nodes.items self.now.entries self.now.count file batch result }
    {
        let i = self.seek(file).ok_or(Cause::Misuse)?;
        let Entry { last, len, .. } = self.entries[i];
        let k = batch as usize;
        if k < len {
            Ok(self.find(last, k))
        } else {
            Err(Cause::Misuse)
        }
    }

    // The jump of a node behind `last`: twice as far as the jump of `last` where that and the one after it are equally far, else `last`.
    fn far(&self, last: usize) -> usize
        requires { last < length self.now.nodes.items }
        ensures { result ≡ far_of self.now.nodes.items last }
    {
        let near = self.nodes[last];
        let hop = self.nodes[near.jump];
        let leap = self.nodes[hop.jump];
        if near.place - hop.place == hop.place - leap.place {
            hop.jump
        } else {
            last
        }
    }

    // What the node `b` behind the last of `target` knows: the node before it, and one before or far before; the first has itself.
    fn links(&self, target: Entry, b: usize) -> (usize, usize)
        requires { 0 < target.len → target.last < length self.now.nodes.items }
        ensures { (result.0 ≡ (if nat_eq target.len 0 then b else target.last)) × (result.1 ≡ (if nat_eq target.len 0 then b else far_of self.now.nodes.items target.last)) }
    {
        if target.len == 0 {
            (b, b)
        } else {
            (target.last, self.far(target.last))
        }
    }

    // The last node of the entry `from` goes behind the last of the entry `to`.
    pub(crate) fn shift(&mut self, from: usize, to: usize, start: usize, length: usize)
        requires { (from ≤ self.old.count) × (to ≤ self.old.count) × (from ≢ to) × (0 < (entry self.old.entries from).len) × (to ≡ 0 → (start ≡ 0) × (length ≡ 0)) }
        ensures nodes { self.new.nodes.items ≡ shifted_nodes self.old.nodes.items self.old.entries from to (jump_of self.old.nodes.items self.old.entries from to) start length }
        ensures entries { self.new.entries ≡ shifted_entries self.old.nodes.items self.old.entries from to }
        ensures rest { (self.new.count ≡ self.old.count) × (self.new.next ≡ self.old.next) }
    {
        let source = self.entries[from];
        let target = self.entries[to];
        let b = source.last;
        let (back, jump) = self.links(target, b);
        let before = self.nodes[b].back;
        self.nodes[b] = Node {
            owner: target.number,
            place: target.len,
            back,
            jump,
            start,
            length,
        };
        self.entries[from] = Entry {
            last: before,
            len: source.len - 1,
            ..source
        };
        self.entries[to] = Entry {
            last: b,
            len: target.len + 1,
            ..target
        };
    }

    // From `x` one step towards the place `k`: by its jump, unless that passes the place.
    fn nearer(&self, x: usize, k: usize) -> usize
        requires { (x < length self.now.nodes.items) × (k < (node self.now.nodes.items x).place) }
        ensures { (result < length self.now.nodes.items) × ((node self.now.nodes.items result).owner ≡ (node self.now.nodes.items x).owner) × (k ≤ (node self.now.nodes.items result).place) × ((node self.now.nodes.items result).place < (node self.now.nodes.items x).place) }
    {
        let near = self.nodes[x];
        if self.nodes[near.jump].place >= k {
            near.jump
        } else {
            near.back
        }
    }

    // The node at the place `k` of the chain in which `last` stands.
    fn find(&self, last: usize, k: usize) -> usize
        requires { (last < length self.now.nodes.items) × (k ≤ (node self.now.nodes.items last).place) }
        ensures { (result < length self.now.nodes.items) × ((node self.now.nodes.items result).owner ≡ (node self.now.nodes.items last).owner) × ((node self.now.nodes.items result).place ≡ k) }
    {
        let mut x = last;
        while self.nodes[x].place > k {
            x = self.nearer(x, k);
        }
        x
    }

    // Takes the next entry into use, if there is one, and gives its number.
    pub(crate) fn create(&mut self) -> Result<u32, Cause>
        ensures { Creates self.old result self.new }
    {
        if self.count >= FILES_MOST {
            return Err(Cause::NoSpace);
        }
        self.count += 1;
        Ok(self.entries[self.count].number)
    }

    // Finishes the file, if it is open.
    pub(crate) fn finish(&mut self, file: u32) -> Result<(), Cause>
        ensures { Finishes self.old file result self.new }
    {
        let i = self.open(file)?;
        self.entries[i].live = false;
        Ok(())
    }

    // Frees the batches of the entry, the last first.
    fn clear(&mut self, i: usize)
        requires { InUse self.old.count i }
        ensures cleared { Cleared self.old.nodes.items self.old.entries i self.new.nodes.items self.new.entries }
        ensures empty { (entry self.new.entries i).len ≡ 0 }
        ensures rest { (self.new.count ≡ self.old.count) × (self.new.next ≡ self.old.next) }
    {
        while self.entries[i].len > 0 {
            self.shift(i, 0, 0, 0);
        }
    }

    // Takes the empty entry out of use: the files made later close up, and behind all comes an entry with a new number.
    fn drop_entry(&mut self, i: usize)
        requires { InUse self.old.count i × ((entry self.old.entries i).len ≡ 0) }
        ensures entries { self.new.entries ≡ closed_up self.old.entries i (renewed self.old.next (entry self.old.entries i).number) }
        ensures rest { (self.new.count ≡ self.old.count - 1) × (self.new.nodes.items ≡ self.old.nodes.items) }
    {
        let (number, next) = renew(self.next, self.entries[i].number);
        self.entries[i..].rotate_left(1);
        self.entries[FILES_MOST] = Entry::spare(number);
        self.count -= 1;
        self.next = next;
    }

    // Takes the file away, and tells whether it was there.
    pub(crate) fn remove(&mut self, file: u32) -> bool
        ensures { Removes self.old file result self.new }
    {
        let Some(i) = self.seek(file) else {
            return false;
        };
        self.clear(i);
        self.drop_entry(i);
        true
    }
}
