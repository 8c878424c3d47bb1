// Gated channels: many senders and one receiver to each of n channels, and one gate before all of them.
//
//     senders           gate      queues       receivers
//     o o o ----\       | |
//     o o o -----+----> | | ---> [x x x] ----> o  channel 0
//     o o o ----/       | | ---> [     ] ----> o  channel 1
//                       | | ---> [x]     ----> o  channel 2
//
// A queue has no limit of its own. The gate is open while some channel with an open receiver and an open sender has an
// empty queue: senders may go on while some receiver has nothing. Once every such queue holds something, senders wait until
// one runs empty.
//
// Elements and waiting entries lie in two memories that are handed in with every call. Who has to wait leaves a waker, a
// number; a call writes the wakers of those who may go on to the front of the woken list and gives their number.
//
// Derived from repartition/distributor_channels.rs of datafusion-physical-plan 55.0.0 (Apache-2.0; see NOTICE). Changed:
// carried over to Rattle; wakers are numbers, futures are polls, drops are closes, and memory is handed in.
#![tactic(auto)]

ghost use Rattle.std.specs.Prelude.{◌≡◌, ◌≤◌, length, count_by, Err as Bad};
ghost use Rattle.bank.specs.Banks.{view, SameCells};
ghost use Rattle.distributor_channels.specs.Calls.{records, tallied, record_open, facts, seen, Does, Chronicles, Kept, Unfit, Same, Steady, Opens, Recounts, within};
ghost use Rattle.distributor_channels.specs.Histories.{sends, receives, closes_sender, closes_receiver};
ghost use Rattle.distributor_channels.specs.Meaning.{on};
ghost use Rattle.distributor_channels.specs.Naming.{Names, Empties};
ghost use Rattle.distributor_channels.specs.Runs.{Runs};
ghost use Rattle.distributor_channels.specs.Steps.{back, send_step, receive_step, close_sender_step, close_receiver_step};
ghost use Rattle.refusal.specs.declared.Refusal.TheVariants.{Lengths};

use bank::{Bank, Queue, Test};
use refusal::Refusal;

// Limits. Two bytes number the message cells, and twelve bits the waiting places; 32 channels are a table of fixed length.
const MOST_CELLS: usize = 65535;

const MOST_PLACES: usize = 4096;

const MOST_CHANNELS: usize = 32;

const MOST_SENDERS: u32 = 32;

// Who waits, and on which channel.
#[derive(Clone, Copy, PartialEq, Eq, Debug)]
pub struct Entry {
    pub waker: u32,
    pub channel: usize,
}

// Holds of the entries on one channel. A `Test` and not a closure, as `take_out` takes no closure.
#[derive(Clone, Copy, PartialEq, Eq, Debug)]
pub struct OnChannel(pub usize);

impl Test<Entry> for OnChannel {
    ghost passes = { λ s e. on s.0 e };

    fn test(&self, x: &Entry) -> bool {
        x.channel == self.0
    }
}

// One channel: its queue while its receiver is open, who waits to receive, and how many senders are open.
#[derive(Clone, Copy, Default, PartialEq, Eq, Debug)]
pub struct Channel {
    queue: Option<Queue>,
    receiving: Queue,
    senders: u32,
}

// The channels, the first n of the table; who waits at the gate; the open count; and the lengths of the memories at opening.
#[derive(Drop)]
pub struct Channels {
    n: usize,
    // an array and no vector in fixed memory, which an opening would fill, move and cut
    table: [Channel; MOST_CHANNELS],
    sending: Queue,
    count: usize,
    places: usize,
    cells: usize,
}

// The list that wakers are written to.
#[derive(Drop)]
pub struct Woken<'a> {
    pub list: &'a mut [u32],
}

// What is handed in with every call: message cells, waiting places, and the woken list.
#[derive(Drop)]
pub struct Memories<'a, T> {
    pub elements: Bank<'a, T>,
    pub entries: Bank<'a, Entry>,
    pub woken: Woken<'a>,
}

// What a send poll answers. The number is that of the wakers named.
#[derive(Drop, PartialEq, Eq, Debug)]
pub enum SendPoll<T> {
    // the element is in the channel's queue
    Sent(usize),
    // the gate is shut: the waker is entered, and here is the element for the next poll
    Wait(T),
    // the receiver is closed
    Closed(T),
}

// A send that was refused, with its element.
#[derive(Drop, PartialEq, Eq, Debug)]
pub struct Refused<T> {
    pub why: Refusal,
    pub element: T,
}

// What a receive poll answers.
#[derive(Drop, PartialEq, Eq, Debug)]
pub enum ReceivePoll<T> {
    // the oldest element, and how many wakers were named
    Element(T, usize),
    // nothing is queued, and a sender is open: the waker is entered
    Wait,
    // nothing is queued, and nothing will be
    End,
}

impl Woken<'_> {
    // Names all entries of `q`, in order, at the front of the list, and gives their number.
    fn name_all(&mut self, entries: &mut Bank<Entry>, q: &mut Queue) -> usize
        ensures law { Names (view entries.old) q.old self.old.list.now (view entries.new) q.new self.new.list.now result }
        ensures same { SameCells entries.old entries.new }
        ensures list { (self.new.list.ghost_name ≡ self.old.list.ghost_name) × (length self.new.list.now ≡ length self.old.list.now) }
    {
        let n = q.len();
        for place in self.list.iter_mut() {
            let Some(entry) = entries.take(q) else {
                break;
            };
            *place = entry.waker;
        }
        n
    }
}

// Lets the elements of `q` go.
fn discard<T: Drop>(elements: &mut Bank<T>, q: &mut Queue)
    ensures law { Empties (view elements.old) q.old (view elements.new) q.new }
    ensures same { SameCells elements.old elements.new }
{
    for _ in 0..q.len() {
        let _ = elements.take(q);
    }
}

impl Channel {
    // Does it count as open: an open receiver, an open sender and an empty queue?
    fn is_open(&self) -> bool
        ensures { result ≡ record_open self.now }
    {
        self.senders > 0 && self.queue.is_some_and(|q| q.len() == 0)
    }
}

// How many of these channels count as open.
fn tally(table: &[Channel]) -> usize
    ensures { result ≡ tallied table.now }
{
    let mut count = 0;
    for channel in table {
        if channel.is_open() {
            count += 1;
        }
    }
    count
}

// Are these lengths within their limits, and has the woken list room for all who could be named?
fn within_limits(cells: usize, places: usize, woken: usize) -> bool
    ensures { result ≡ within cells places woken }
{
    (1..=MOST_CELLS).contains(&cells) && (1..=MOST_PLACES).contains(&places) && places <= woken
}

impl Channels {
    // Opens `n` channels with `senders` senders each over these memories.
    pub fn open<T>(memories: &Memories<T>, n: usize, senders: u32) -> Result<Channels, Refusal>
        ensures { Opens (seen memories.now) n senders result }
    {
        let cells = memories.elements.size();
        let places = memories.entries.size();
        if !within_limits(cells, places, memories.woken.list.len()) {
            return Err(Refusal::Lengths);
        }
        if n > MOST_CHANNELS || !(1..=MOST_SENDERS).contains(&senders) {
            return Err(Refusal::Range);
        }
        let channel = Channel {
            queue: Some(Queue::new()),
            receiving: Queue::new(),
            senders,
        };
        Ok(Channels {
            n,
            table: [channel; MOST_CHANNELS],
            sending: Queue::new(),
            count: n,
            places,
            cells,
        })
    }

    // The open count by its definition: how many channels have an open receiver, an open sender and an empty queue. The
    // memories are not read; they are there for the contract to speak of.
    pub fn recount<T>(&self, memories: &Memories<T>) -> usize
        ensures { Recounts self.now (seen memories.now) result }
    {
        tally(&self.table[..self.n.min(MOST_CHANNELS)])
    }

    // How many channels there are, and no more than the table has room for: an index below this is in the table.
    fn len(&self) -> usize
        ensures is { result ≡ length (records self.now) }
        ensures few { result ≤ 32 }
    {
        self.n.min(MOST_CHANNELS)
    }

    // Are the memories as long as they were, and the woken list long enough?
    fn fit<T>(&self, memories: &Memories<T>) -> bool
        ensures { result ≡ (facts self.now (seen memories.now)).fit }
    {
        let places = memories.entries.size();
        self.cells == memories.elements.size()
            && self.places == places
            && places <= memories.woken.list.len()
    }

    // Polls the send of `element` on `channel`; who has to wait leaves `waker`.
    pub fn send_poll<T>(
        &mut self,
        memories: &mut Memories<T>,
        channel: usize,
        waker: u32,
        element: T,
    ) -> Result<SendPoll<T>, Refused<T>>
        ensures law { Does (λ f m. send_step f m channel waker element) self.old (seen memories.old) self.new (seen memories.new) result }
        ensures history { Chronicles (sends channel waker element) (λ f m. send_step f m channel waker element) self.old (seen memories.old) result }
        ensures kept { Kept (seen memories.new) element result }
        ensures unfit { Unfit (back Lengths element) self.old (seen memories.old) self.new (seen memories.new) result }
        ensures same { Same memories.old memories.new }
        ensures steady { Steady self.old (seen memories.old) self.new (seen memories.new) }
    {
        if !self.fit(memories) {
            let why = Refusal::Lengths;
            return Err(Refused { why, element });
        }
        if channel >= self.len() {
            let why = Refusal::Range;
            return Err(Refused { why, element });
        }
        let record = &mut self.table[channel];
        if record.senders == 0 {
            let why = Refusal::Closed;
            return Err(Refused { why, element });
        }
        let Some(queue) = &mut record.queue else {
            return Ok(SendPoll::Closed(element));
        };
        if self.count == 0 {
            let entry = Entry { waker, channel };
            let why = Refusal::Places;
            return match memories.entries.add(&mut self.sending, entry) {
                Ok(()) => Ok(SendPoll::Wait(element)),
                Err(_) => Err(Refused { why, element }),
            };
        }
        let was_empty = queue.len() == 0;
        if let Err(element) = memories.elements.add(queue, element) {
            let why = Refusal::Cells;
            return Err(Refused { why, element });
        }
        if !was_empty {
            return Ok(SendPoll::Sent(0));
        }
        self.count = self.count.saturating_sub(1);
        let named = memories
            .woken
            .name_all(&mut memories.entries, &mut record.receiving);
        Ok(SendPoll::Sent(named))
    }

    // Polls the receiver of `channel`; who has to wait leaves `waker`.
    pub fn receive_poll<T>(
        &mut self,
        memories: &mut Memories<T>,
        channel: usize,
        waker: u32,
    ) -> Result<ReceivePoll<T>, Refusal>
        ensures law { Does (λ f m. receive_step f m channel waker) self.old (seen memories.old) self.new (seen memories.new) result }
        ensures history { Chronicles (receives channel waker) (λ f m. receive_step f m channel waker) self.old (seen memories.old) result }
        ensures unfit { Unfit (Bad Lengths) self.old (seen memories.old) self.new (seen memories.new) result }
        ensures same { Same memories.old memories.new }
        ensures steady { Steady self.old (seen memories.old) self.new (seen memories.new) }
    {
        if !self.fit(memories) {
            return Err(Refusal::Lengths);
        }
        if channel >= self.len() {
            return Err(Refusal::Range);
        }
        let record = &mut self.table[channel];
        let Some(queue) = &mut record.queue else {
            return Err(Refusal::Closed);
        };
        let Some(element) = memories.elements.take(queue) else {
            if record.senders == 0 {
                return Ok(ReceivePoll::End);
            }
            let entry = Entry { waker, channel };
            return match memories.entries.add(&mut record.receiving, entry) {
                Ok(()) => Ok(ReceivePoll::Wait),
                Err(_) => Err(Refusal::Places),
            };
        };
        if !record.is_open() {
            return Ok(ReceivePoll::Element(element, 0));
        }
        let was_shut = self.count == 0;
        self.count = self.count.saturating_add(1);
        if !was_shut {
            return Ok(ReceivePoll::Element(element, 0));
        }
        let named = memories
            .woken
            .name_all(&mut memories.entries, &mut self.sending);
        Ok(ReceivePoll::Element(element, named))
    }

    // Closes one sender of `channel`; the last one names who waits to receive.
    pub fn close_sender<T>(
        &mut self,
        memories: &mut Memories<T>,
        channel: usize,
    ) -> Result<usize, Refusal>
        ensures law { Does (λ f m. close_sender_step f m channel) self.old (seen memories.old) self.new (seen memories.new) result }
        ensures history { Chronicles (closes_sender channel) (λ f m. close_sender_step f m channel) self.old (seen memories.old) result }
        ensures unfit { Unfit (Bad Lengths) self.old (seen memories.old) self.new (seen memories.new) result }
        ensures same { Same memories.old memories.new }
        ensures steady { Steady self.old (seen memories.old) self.new (seen memories.new) }
    {
        if !self.fit(memories) {
            return Err(Refusal::Lengths);
        }
        if channel >= self.len() {
            return Err(Refusal::Range);
        }
        let record = &mut self.table[channel];
        if record.senders == 0 {
            return Err(Refusal::Closed);
        }
        if record.senders > 1 {
            record.senders -= 1;
            return Ok(0);
        }
        self.count = self.count.saturating_sub(usize::from(record.is_open()));
        record.senders = 0;
        Ok(
            memories
                .woken
                .name_all(&mut memories.entries, &mut record.receiving),
        )
    }

    // Closes the receiver of `channel`: what is queued is let go, and who waits at the gate for this channel is named.
    pub fn close_receiver<T: Drop>(
        &mut self,
        memories: &mut Memories<T>,
        channel: usize,
    ) -> Result<usize, Refusal>
        ensures law { Does (λ f m. close_receiver_step f m channel) self.old (seen memories.old) self.new (seen memories.new) result }
        ensures history { Chronicles (closes_receiver channel) (λ f m. close_receiver_step f m channel) self.old (seen memories.old) result }
        ensures unfit { Unfit (Bad Lengths) self.old (seen memories.old) self.new (seen memories.new) result }
        ensures same { Same memories.old memories.new }
        ensures steady { Steady self.old (seen memories.old) self.new (seen memories.new) }
    {
        if !self.fit(memories) {
            return Err(Refusal::Lengths);
        }
        if channel >= self.len() {
            return Err(Refusal::Range);
        }
        let record = &mut self.table[channel];
        let was_open = record.is_open();
        let Some(mut queue) = record.queue.take() else {
            return Err(Refusal::Closed);
        };
        self.count = self.count.saturating_sub(usize::from(was_open));
        discard(&mut memories.elements, &mut queue);
        let mut gone = memories
            .entries
            .take_out(&mut self.sending, &OnChannel(channel));
        Ok(memories.woken.name_all(&mut memories.entries, &mut gone))
    }
}

// The worked runs: the contract is all that it says, and 0 stands for nothing.
pub fn runs_stand() -> u8
    ensures { Runs }
{
    0
}

#[cfg(test)]
mod tests;
