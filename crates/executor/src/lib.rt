// An executor: it polls feeds and rooms over gated channels until nobody can go on.
//
//     notices --> feed 0 --\                /--> room 0 --\
//     notices --> feed 1 ---+-- channels --+---> room 1 ---+--> book of deliveries
//                                           \--> room 2 --/
//
// Feeds and rooms are tasks with a number, which is their waker: feeds from 0, rooms from 32. A task that has to wait is
// not polled again until a call names it. The task with the lowest number goes first, so feeds run ahead of rooms until
// the gate or the memory stops them.
#![tactic(auto)]

ghost use Rattle.std.specs.Prelude.{◌≡◌, ◌≢◌, ◌==◌, ◌<◌, ◌≤◌, ◌↔◌, ℕ, true, List, [], length, Some, Ok, Err, IfOk, IsTrue, drop, find, slice_index};
ghost use Rattle.std.specs.List.{enumerate_from};
ghost use Rattle.executor.specs.declared.run.Halt.TheVariants.{Memory};
ghost use Rattle.executor.specs.Books.{Stands, Keeps, Sends, Drained, Settles, outcome_of, advance, told_end};
ghost use Rattle.executor.specs.Texts.{sending_text};

pub mod run;
mod tasks;

use crate::run::Halt;
use crate::tasks::Task;
use bank::{Bank, Cell};
use distributor_channels::{Channels, Entry, Memories, ReceivePoll, Refused, SendPoll, Woken};
use refusal::Refusal;
use std::alloc::Global;
use std::fmt;

// One notice: the feed that brings it, the room that it is for, and its number.
#[derive(Clone, Copy, PartialEq, Eq, Debug)]
pub struct Notice {
    pub feed: usize,
    pub room: usize,
    pub id: u64,
}

// One delivery: the room, and the number of the notice.
#[derive(Clone, Copy, PartialEq, Eq, Debug)]
pub struct Delivery {
    pub room: usize,
    pub id: u64,
}

// What a turn of a feed came to.
#[derive(Clone, Copy, PartialEq, Eq, Debug)]
pub enum Sending {
    // the notice is in its room's queue; so many wakers were named
    Sent(Notice, usize),
    // the gate is shut
    Waits(Notice),
    // no cell, or no waiting place, is free
    Full(Notice),
    // the feed has no more notices
    Done,
}

impl Sending {
    // What the answer to a notice's send poll comes to. A refused notice is tried again where only room was wanting.
    fn of(notice: Notice, polled: Result<SendPoll<u64>, Refused<u64>>) -> Result<Sending, Refusal>
        ensures { result ≡ outcome_of notice polled }
    {
        match polled {
            Ok(SendPoll::Sent(named)) => Ok(Sending::Sent(notice, named)),
            Ok(SendPoll::Wait(_)) => Ok(Sending::Waits(notice)),
            Ok(SendPoll::Closed(_)) => Err(Refusal::Closed),
            Err(refused) => match refused.why {
                Refusal::Cells | Refusal::Places => Ok(Sending::Full(notice)),
                why => Err(why),
            },
        }
    }

    // How many notices a feed goes on by: one where its own was accepted.
    fn step(&self) -> usize
        ensures law { result ≡ advance (Ok self.now) }
        ensures one { result ≤ 1 }
    {
        usize::from(matches!(self, Sending::Sent(..)))
    }
}

// What is said of the feed.
impl fmt::Display for Sending {
    ghost output = { λ sending. Some (sending_text sending) };

    fn fmt<W: fmt::Write>(&self, f: &mut fmt::Formatter<W>) -> fmt::Result {
        match self {
            Sending::Sent(Notice { room, id, .. }, _) => write!(f, "sends {id} to room {room}"),
            Sending::Waits(Notice { id, .. }) => {
                write!(f, "waits with {id}, since every room has something queued")
            }
            Sending::Full(Notice { id, .. }) => {
                write!(f, "keeps {id}, since the memory is full")
            }
            Sending::Done => write!(f, "has no more, and is closed"),
        }
    }
}

// The next notice of `feed` from the place `from` on, with its place.
fn next_of(notices: &[Notice], feed: usize, from: usize) -> Option<(usize, Notice)>
    ensures { result ≡ find (λ x. x.1.feed == feed) (drop from (enumerate_from 0 notices.now)) }
{
    // a slice that begins at the place where the feed has come to
    let ahead = notices.get(from..)?;
    let (passed, notice) = ahead
        .iter()
        .copied()
        .enumerate()
        .find(|(_, notice)| notice.feed == feed)?;
    Some((from + passed, notice))
}

// The channels with their memories, the book of what was delivered, and how far each feed has come in the list of notices.
#[derive(Drop)]
pub struct Floor<'a> {
    channels: Channels,
    memories: Memories<'a, u64>,
    book: Vec<Delivery>,
    // no `Vec`: a delivery takes heap for its book alone
    cursors: [usize; 32],
}

impl<'a> Floor<'a> {
    // A floor over these memories: so many rooms, each with a sender for each feed.
    fn open(
        heap: Global,
        elements: &'a mut [Cell<u64>],
        entries: &'a mut [Cell<Entry>],
        woken: &'a mut [u32],
        rooms: usize,
        feeds: u32,
    ) -> Result<Floor<'a>, Refusal>
        ensures { IfOk result (λ f. (notices : List Notice) → Stands rooms feeds notices [] f) }
    {
        let memories = Memories {
            elements: Bank::new(elements),
            entries: Bank::new(entries),
            woken: Woken { list: woken },
        };
        let channels = Channels::open(&memories, rooms, feeds)?;
        Ok(Floor {
            channels,
            memories,
            book: Vec::new(heap),
            cursors: [0; 32],
        })
    }

    // Polls the send of the feed's next notice.
    fn send_next(&mut self, notices: &[Notice], feed: usize) -> Result<Sending, Refusal>
        ensures { Sends notices.now result self.old self.new }
    {
        let Some(&from) = self.cursors.get(feed) else {
            return Err(Refusal::Range);
        };
        let Some((i, notice)) = next_of(notices, feed, from) else {
            self.cursors[feed] = notices.len();
            return Ok(Sending::Done);
        };
        let waker = Task::Feed(feed).waker();
        let polled = self
            .channels
            .send_poll(&mut self.memories, notice.room, waker, notice.id);
        let sending = Sending::of(notice, polled)?;
        self.cursors[feed] = i + sending.step();
        Ok(sending)
    }

    // Polls a room, and books what it is given. If that was the end, everything accepted there is in the book.
    // Where no memory is left for the book, it lacks what was given.
    fn receive_next(&mut self, room: usize) -> Result<ReceivePoll<u64>, Halt>
        ensures law { result ≢ Err Memory → Drained (told_end result) room self.old self.new }
        ensures places { self.new.cursors ≡ self.old.cursors }
    {
        let waker = Task::Room(room).waker();
        let polled = self.channels.receive_poll(&mut self.memories, room, waker)?;
        if let ReceivePoll::Element(id, _) = polled {
            self.book.push(Delivery { room, id })?;
        }
        Ok(polled)
    }

    // Polls a room, and tells whether that was the end.
    fn drained(&mut self, room: usize) -> Result<bool, Halt>
        ensures law { IfOk result (λ b. Drained b room self.old self.new) }
        ensures places { self.new.cursors ≡ self.old.cursors }
    {
        match self.receive_next(room) {
            Ok(polled) => Ok(matches!(polled, ReceivePoll::End)),
            // it has more, or it would have to wait
            Err(Halt::Refused(_)) => Ok(false),
            Err(halt) => Err(halt),
        }
    }

    // Have all of these feeds come to the end of the notices?
    fn all_at_end(&self, feeds: usize, end: usize) -> bool
        ensures { IsTrue result ↔ ((feeds ≤ length self.now.cursors) × ((feed : ℕ) → feed < feeds → end ≤ slice_index self.now.cursors feed)) }
    {
        match self.cursors.get(..feeds) {
            Some(cursors) => cursors.iter().all(|cursor| *cursor >= end),
            None => false,
        }
    }

    // Was everything delivered: has each feed come to its end, and is each room told the end?
    fn settle(&mut self, notices: &[Notice], rooms: usize, feeds: usize) -> Result<bool, Halt>
        ensures { IfOk result (λ b. b ≡ true → Settles rooms feeds notices.now self.old self.new) }
    {
        if !self.all_at_end(feeds, notices.len()) {
            return Ok(false);
        }
        for room in 0..rooms {
            if !self.drained(room)? {
                return Ok(false);
            }
        }
        Ok(true)
    }

    // What was delivered, in order.
    pub fn deliveries(&self) -> &[Delivery]
        ensures { result.now ≡ self.now.book.items }
    {
        self.book.as_slice()
    }

    // The wakers that a call named, so many from the front of the woken list.
    fn woken(&self, named: usize) -> &[u32] {
        let list = &self.memories.woken.list;
        &list[..named.min(list.len())]
    }

    // Closes one sender of a room.
    fn leave(&mut self, room: usize) -> Result<usize, Refusal>
        ensures { Keeps self.old self.new }
    {
        self.channels.close_sender(&mut self.memories, room)
    }
}

#[cfg(test)]
mod tests;
