// One batch in the memory of a store, and one file.
//
// The batches of a file are a chain: the entry knows the last, and each batch the one before. A batch also knows one far before, so
// that any batch is found in steps that grow with the logarithm of how many there are. What is free is a chain too, that of number 0.

ghost use Rattle.std.specs.Prelude.{◌≡◌};
ghost use Rattle.stores.specs.Chains.{blank_node, free_node, spare};

// Nodes name one another by their places, with no `Box` or `Vec` for a chain: the memory is handed in, and nothing is allocated.
#[derive(Clone, Copy, PartialEq, Eq, Debug)]
pub struct Node {
    // the number of the file, or 0 for what is free, which is a chain like any other
    pub(crate) owner: u32,
    // how many stand before it in its chain
    pub(crate) place: usize,
    // the node before; the first has itself
    pub(crate) back: usize,
    // a node before, or far before
    pub(crate) jump: usize,
    // where its words begin, and how many they are
    pub(crate) start: usize,
    pub(crate) length: usize,
}

impl Node {
    // A node to make a memory of.
    pub fn new() -> Node
        ensures { result ≡ blank_node }
    {
        Node {
            owner: 0,
            place: 0,
            back: 0,
            jump: 0,
            start: 0,
            length: 0,
        }
    }

    // The node at the place, where all are free.
    pub(crate) fn free(place: usize) -> Node
        ensures { result ≡ free_node place }
    {
        let back = place.saturating_sub(1);
        Node {
            place,
            back,
            jump: back,
            ..Node::new()
        }
    }
}

#[derive(Clone, Copy, PartialEq, Eq, Debug)]
pub(crate) struct Entry {
    // the number of the file, or 0 for what is free: no `Option`, since nodes go from and to that chain as from and to a file's
    pub(crate) number: u32,
    pub(crate) live: bool,
    // the last node of the chain, and how many there are
    pub(crate) last: usize,
    pub(crate) len: usize,
}

impl Entry {
    // An entry for a file to come.
    pub(crate) fn spare(number: u32) -> Entry
        ensures { result ≡ spare number }
    {
        Entry {
            number,
            live: true,
            last: 0,
            len: 0,
        }
    }
}
