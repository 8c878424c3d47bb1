// A bank of queues: any number of first-in, first-out queues share the cells of one memory.
//
//     cells   [ 0 ] [ 1 ] [ 2 ] [ 3 ] [ 4 ] [ 5 ]
//     free      0 --------------> 3 --------> 5
//     queue A         1 <-- 4          (first 4, then 1)
//     queue B               2
//
// The memory is handed in. A queue is a small value that its owner keeps: its first cell, its last, and how many.
// Every cell is in one chain, a queue or the free cells, and each call moves cells between chains: nothing is allocated
// or copied, and what is freed serves again. Each call but the making and `take_out` takes the same time however long
// queues and memory are; no call but the making walks the memory.
//
// Only `memory` allocates: it is for callers who have a heap, and no other function calls it.
#![tactic(auto)]

ghost use Rattle.std.specs.Prelude.{◌≡◌, Bool, ◌∷◌, IfOk, MatchOption, length, replicate, None};
ghost use Rattle.bank.specs.Banks.{view, mem, size, SameCells, Makes, Counts, Measures, Adds, Takes, ReadsOldest, ReadsNewest, Rewrites, Moves, TakesOut};
ghost use Rattle.bank.specs.Cells.{cell, empty, first, last, linkable, Relinked, Filled, Emptied, Swapped, Safe, Looked};
ghost use Rattle.bank.specs.Lists.{oldest as oldest_of, newest as newest_of, rest, older, push};
ghost use Rattle.bank.specs.Turning.{Turns};
ghost use Rattle.std.specs.Option.{option_map};

use std::alloc::{AllocError, Global};
use std::mem;

// One cell of the memory: what it holds, and the cell behind it in its chain. That one is named by its number and not
// boxed, since the memory is handed in and nothing is allocated.
#[derive(Drop)]
pub struct Cell<T> {
    next: usize,
    item: Option<T>,
}

impl<T> Cell<T> {
    // A cell to make a memory of: it holds nothing.
    pub fn new() -> Cell<T>
        ensures { result ≡ cell 0 None }
    {
        Cell {
            next: 0,
            item: None,
        }
    }
}

// `n` cells to make a memory of.
pub fn memory<T: Drop>(heap: Global, n: usize) -> Result<Vec<Cell<T>>, AllocError>
    ensures { IfOk result (λ v. v.items ≡ replicate n (cell 0 None)) }
{
    let mut cells = Vec::new(heap);
    // `resize_with(n, Cell::new)` gets no proof yet: the result of `Cell::new` names `T`, and its arguments do not.
    for _ in 0..n {
        cells.push(Cell::new())?;
    }
    Ok(cells)
}

// A chain of cells: its first, its last, and how many.
#[derive(Clone, Copy, Default, PartialEq, Eq, Debug)]
pub struct Queue {
    head: usize,
    tail: usize,
    len: usize,
}

impl Queue {
    // A queue with nothing in it, of any bank.
    pub fn new() -> Queue
        ensures { result ≡ empty }
    {
        Queue {
            head: 0,
            tail: 0,
            len: 0,
        }
    }

    // How many elements it has.
    pub fn len(&self) -> usize
        ensures { result ≡ self.now.len }
    {
        self.len
    }

    // Its first cell, if it has one.
    fn first(self) -> Option<usize>
        ensures { result ≡ first self }
    {
        (self.len > 0).then_some(self.head)
    }

    // Its last cell, if it has one.
    fn last(self) -> Option<usize>
        ensures { result ≡ last self }
    {
        (self.len > 0).then_some(self.tail)
    }
}

// A test of elements. A trait and not a closure, whose call would need a `requires`: no public function has one.
pub trait Test<T> {
    ghost passes: { Self → T → Bool };

    fn test(&self, x: &T) -> bool
        ensures { result ≡ passes self.now x.now };
}

// Among `n` cells, can the first cell of `from` go behind the cell `last` of `to`?
fn can_link(n: usize, from: Queue, to: Queue, last: usize) -> bool
    ensures { result ≡ linkable n from to last }
{
    from.len > 0 && from.head < n && to.len < n && last < n
}

// Moves the first cell of `from` behind the last of `to`, with what it holds. False, and no change, where there is none.
fn relink<T>(cells: &mut [Cell<T>], from: &mut Queue, to: &mut Queue) -> bool
    ensures { Relinked cells.old from.old to.old cells.new from.new to.new result }
{
    let head = from.head;
    let last = to.last().unwrap_or(head);
    if !can_link(cells.len(), *from, *to, last) {
        return false;
    }
    from.head = cells[head].next;
    from.len -= 1;
    cells[last].next = head;
    *to = Queue {
        head: to.first().unwrap_or(head),
        tail: head,
        len: to.len + 1,
    };
    true
}

// Puts `x` into the cell `i`, if that holds nothing.
fn fill<T>(cells: &mut [Cell<T>], i: usize, x: T) -> Result<(), T>
    ensures law { Filled cells.old i x cells.new result }
    ensures safe { Safe cells.new i x result }
{
    // Indexed, here and below: a slice's `get_mut` tells a proof nothing of the elements after a write.
    if i >= cells.len() || cells[i].item.is_some() {
        return Err(x);
    }
    match cells[i].item.replace(x) {
        None => Ok(()),
        Some(y) => Err(y),
    }
}

// Takes what the cell `i` holds.
fn empty_out<T>(cells: &mut [Cell<T>], i: usize) -> Option<T>
    ensures { Emptied cells.old i cells.new result }
{
    if i < cells.len() {
        cells[i].item.take()
    } else {
        None
    }
}

// Puts `x` into the cell `i`, if there is one, in the place of what it holds, and gives that; hands `x` back where it
// holds nothing.
fn swap<T>(cells: &mut [Cell<T>], i: Option<usize>, x: T) -> Result<T, T>
    ensures law { Swapped cells.old i x cells.new result }
    ensures safe { MatchOption i (result ≡ Err x) (λ j. Safe cells.new j x result) }
{
    if let Some(i) = i
        && i < cells.len()
        && let Some(y) = &mut cells[i].item
    {
        return Ok(mem::replace(y, x));
    }
    Err(x)
}

// What the cell `i` holds, if there is one.
fn look<T>(cells: &[Cell<T>], i: Option<usize>) -> Option<&T>
    ensures { Looked cells.now i (option_map (λ x. x.now) result) }
{
    cells.get(i?)?.item.as_ref()
}

// Frees every cell: each points to the next.
fn clear<T: Drop>(cells: &mut [Cell<T>]) -> Queue
    ensures { Makes (length cells.old) (mem result cells.new) }
{
    let n = cells.len();
    for (i, cell) in cells.iter_mut().enumerate() {
        *cell = Cell {
            next: i + 1,
            item: None,
        };
    }
    Queue {
        head: 0,
        tail: n.saturating_sub(1),
        len: n,
    }
}

// Queues over one memory.
#[derive(Drop)]
pub struct Bank<'a, T> {
    cells: &'a mut [Cell<T>],
    free: Queue,
}

impl<'a, T> Bank<'a, T> {
    // A bank over these cells, all free; what they held is let go.
    pub fn new(cells: &'a mut [Cell<T>]) -> Bank<'a, T>
    where
        T: Drop,
        ensures { Makes (length cells.old) (view result) }
    {
        let free = clear(cells);
        Bank { cells, free }
    }

    // How many cells there are.
    pub fn size(&self) -> usize
        ensures { result ≡ size (view self.now) }
    {
        self.cells.len()
    }

    // How many cells are free.
    pub fn free(&self) -> usize
        ensures { Counts (view self.now) result }
    {
        self.free.len
    }

    // How many elements `q` has.
    pub fn len(&self, q: &Queue) -> usize
        ensures { Measures (view self.now) q.now result }
    {
        q.len
    }

    // Adds `x` at the back of `q`, or hands it back where no cell is free.
    pub fn add(&mut self, q: &mut Queue, x: T) -> Result<(), T>
        ensures law { Adds (view self.old) q.old x (view self.new) q.new result }
        ensures safe { Safe self.new.cells.now q.new.tail x result }
        ensures same { SameCells self.old self.new }
    {
        if !relink(self.cells, &mut self.free, q) {
            return Err(x);
        }
        fill(self.cells, q.tail, x)
    }

    // Takes the oldest element of `q`, or nothing where it is empty.
    pub fn take(&mut self, q: &mut Queue) -> Option<T>
        ensures law { Takes (view self.old) q.old (view self.new) q.new result }
        ensures same { SameCells self.old self.new }
    {
        if !relink(self.cells, q, &mut self.free) {
            return None;
        }
        empty_out(self.cells, self.free.tail)
    }

    // The oldest element of `q`.
    pub fn oldest(&self, q: &Queue) -> Option<&T>
        ensures { ReadsOldest (view self.now) q.now (option_map (λ x. x.now) result) }
    {
        look(self.cells, q.first())
    }

    // The newest element of `q`.
    pub fn newest(&self, q: &Queue) -> Option<&T>
        ensures { ReadsNewest (view self.now) q.now (option_map (λ x. x.now) result) }
    {
        look(self.cells, q.last())
    }

    // Puts `x` in the place of the oldest element of `q` and gives that, or hands `x` back where `q` is empty.
    pub fn rewrite_oldest(&mut self, q: &Queue, x: T) -> Result<T, T>
        ensures law { Rewrites oldest_of (λ xs. x ∷ rest xs) (view self.old) q.now x (view self.new) result }
        ensures safe { Safe self.new.cells.now q.now.head x result }
        ensures same { SameCells self.old self.new }
    {
        swap(self.cells, q.first(), x)
    }

    // Puts `x` in the place of the newest element of `q` and gives that, or hands `x` back where `q` is empty.
    pub fn rewrite_newest(&mut self, q: &Queue, x: T) -> Result<T, T>
        ensures law { Rewrites newest_of (λ xs. push (older xs) x) (view self.old) q.now x (view self.new) result }
        ensures safe { Safe self.new.cells.now q.now.tail x result }
        ensures same { SameCells self.old self.new }
    {
        swap(self.cells, q.last(), x)
    }

    // Moves the oldest element of `from` to the back of `to`, another queue; false where there is none.
    pub fn pass(&mut self, from: &mut Queue, to: &mut Queue) -> bool
        ensures law { Moves (view self.old) from.old to.old (view self.new) from.new to.new result }
        ensures same { SameCells self.old self.new }
    {
        relink(self.cells, from, to)
    }

    // The oldest element of `q` goes to the back of `out` if it passes, and else to the back of its own queue.
    fn turn<P: Test<T>>(&mut self, q: &mut Queue, out: &mut Queue, p: &P)
        ensures law { Turns (P.Test.passes p.now) (view self.old) q.old out.old (view self.new) q.new out.new }
        ensures same { SameCells self.old self.new }
    {
        let Some(x) = self.oldest(q) else {
            return;
        };
        if p.test(x) {
            self.pass(q, out);
            return;
        }
        let mut aside = Queue::new();
        self.pass(q, &mut aside);
        self.pass(&mut aside, q);
    }

    // Takes out the elements of `q` that pass: they stand in order in the queue that comes back, and the others keep their order.
    pub fn take_out<P: Test<T>>(&mut self, q: &mut Queue, p: &P) -> Queue
        ensures law { TakesOut (P.Test.passes p.now) (view self.old) q.old (view self.new) q.new result }
        ensures same { SameCells self.old self.new }
    {
        let mut out = Queue::new();
        for _ in 0..q.len {
            self.turn(q, &mut out, p);
        }
        out
    }
}

#[cfg(test)]
mod tests;
