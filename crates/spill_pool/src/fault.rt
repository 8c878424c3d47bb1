// A fault: what failed, where, and why.
ghost use Rattle.std.specs.Prelude.{◌≡◌, Some};
ghost use Rattle.resources.specs.declared.cause.Cause.{Cause as StoreCause};
ghost use Rattle.spill_pool.specs.Faults.{layer_number, call_number, file_of, store_fault, feed_fault};
ghost use Rattle.spill_pool.specs.Texts.{call_text, layer_text, subject_text, fault_text};

use resources::cause::Cause;
use std::fmt;

// Who failed.
#[derive(Clone, Copy, PartialEq, Eq, Debug)]
pub enum Layer {
    // 1
    Feed,
    // 2
    Store,
}

// The call of the store that failed.
#[derive(Clone, Copy, PartialEq, Eq, Debug)]
pub enum StoreCall {
    // 0: a feed failed, and no call
    NoCall,
    // 1
    Create,
    // 2
    Append,
    // 3
    Finish,
    // 4
    Read,
}

#[derive(Clone, Copy, PartialEq, Eq, Debug)]
pub struct Fault {
    pub layer: Layer,
    pub partition: usize,
    pub call: StoreCall,
    // the number of the file, 0 for a feed and for create; `file()` tells none there
    pub file: u32,
    // 1 to 255
    pub cause: u8,
}

impl Layer {
    // The number under which the layer is known: by a match, since `as u8` counts from 0.
    pub fn number(&self) -> u8
        ensures { result ≡ layer_number self.now }
    {
        match self {
            Layer::Feed => 1,
            Layer::Store => 2,
        }
    }
}

impl StoreCall {
    // The number under which the call is known: by a match, like a layer's.
    pub fn number(&self) -> u8
        ensures { result ≡ call_number self.now }
    {
        match self {
            StoreCall::NoCall => 0,
            StoreCall::Create => 1,
            StoreCall::Append => 2,
            StoreCall::Finish => 3,
            StoreCall::Read => 4,
        }
    }
}

impl Fault {
    // A call of the store failed on that file.
    pub fn of_store(partition: usize, call: StoreCall, file: u32, cause: Cause) -> Fault
        ensures { result ≡ store_fault partition call file cause }
    {
        Fault {
            layer: Layer::Store,
            partition,
            call,
            file,
            cause: cause.number(),
        }
    }

    // The number of the file on which a call was made: none where no call failed, and for create.
    pub fn file(&self) -> Option<u32>
        ensures { result ≡ file_of self.now }
    {
        match (self.layer, self.call) {
            (Layer::Feed, _) | (Layer::Store, StoreCall::NoCall | StoreCall::Create) => None,
            (Layer::Store, StoreCall::Append | StoreCall::Finish | StoreCall::Read) => {
                Some(self.file)
            }
        }
    }

    // A feed failed.
    pub fn of_feed(partition: usize, cause: u8) -> Fault
        ensures { result ≡ feed_fault partition cause }
    {
        Fault {
            layer: Layer::Feed,
            partition,
            call: StoreCall::NoCall,
            file: 0,
            cause,
        }
    }
}

impl fmt::Display for StoreCall {
    ghost output = { λ call. Some (call_text call) };

    fn fmt<W: fmt::Write>(&self, f: &mut fmt::Formatter<W>) -> fmt::Result {
        match self {
            StoreCall::NoCall => write!(f, "no call"),
            StoreCall::Create => write!(f, "create"),
            StoreCall::Append => write!(f, "append"),
            StoreCall::Finish => write!(f, "finish"),
            StoreCall::Read => write!(f, "read"),
        }
    }
}

impl fmt::Display for Layer {
    ghost output = { λ layer. Some (layer_text layer) };

    fn fmt<W: fmt::Write>(&self, f: &mut fmt::Formatter<W>) -> fmt::Result {
        match self {
            Layer::Feed => write!(f, "the feed"),
            Layer::Store => write!(f, "the store"),
        }
    }
}

// What failed, as a fault's text begins: the layer where no call did, else the call, and the file on which it was made.
#[derive(Clone, Copy)]
struct Subject(Fault);

impl fmt::Display for Subject {
    ghost output = { λ subject. Some (subject_text subject.0) };

    fn fmt<W: fmt::Write>(&self, f: &mut fmt::Formatter<W>) -> fmt::Result {
        let Fault {
            layer,
            call,
            file,
            ..
        } = self.0;
        match (layer, call) {
            (Layer::Feed, _) | (Layer::Store, StoreCall::NoCall) => write!(f, "{layer}"),
            (Layer::Store, StoreCall::Create) => write!(f, "{call}"),
            (Layer::Store, StoreCall::Append) => write!(f, "{call} to file {file}"),
            (Layer::Store, StoreCall::Finish | StoreCall::Read) => {
                write!(f, "{call} of file {file}")
            }
        }
    }
}

impl fmt::Display for Fault {
    ghost output = { λ fault. Some (fault_text fault) };

    fn fmt<W: fmt::Write>(&self, f: &mut fmt::Formatter<W>) -> fmt::Result {
        write!(f, "{} fails, cause {}", Subject(*self), self.cause)
    }
}
