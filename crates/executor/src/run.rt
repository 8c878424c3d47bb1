// The loop: whose turn it is, what a turn does, and what is said about it.
ghost use Rattle.std.specs.Prelude.{◌≡◌, true, IfOk, OnOk};
ghost use Rattle.executor.specs.Books.{Goes, Delivered};
ghost use Rattle.executor.specs.Texts.{halt_text};
ghost use Rattle.executor.specs.declared.run.Halt.TheVariants.{Refused, Memory, Output};

use crate::tasks::{Ready, Task};
use crate::{Floor, Notice, Sending};
use bank::Cell;
use distributor_channels::{Entry, ReceivePoll};
use refusal::Refusal;
use std::alloc::{AllocError, AllocFailed, Global};
use std::error::Error;
use std::{fmt, io};

// How often a task may be polled for each notice, and besides. A call names at most all 64 tasks, and each is then polled once.
const POLLS_EACH: u64 = 80;

const POLLS_BESIDES: u64 = 10_000;

// Why a run came to no end.
#[derive(Debug, Drop)]
pub enum Halt {
    Refused(Refusal),
    Memory,
    Output(io::Error),
}

impl fmt::Display for Halt {
    ghost output = { halt_text };

    fn fmt<W: fmt::Write>(&self, f: &mut fmt::Formatter<W>) -> fmt::Result {
        match self {
            Halt::Refused(_) => write!(f, "a call was refused"),
            Halt::Memory => write!(f, "no memory is left"),
            Halt::Output(error) => write!(f, "{error}"),
        }
    }
}

impl Error for Halt {}

impl From<AllocError> for Halt {
    ghost from_gives = { λ _ halt. halt ≡ Memory };

    fn from(_e: AllocError) -> Halt {
        Halt::Memory
    }
}

impl<T: Drop> From<AllocFailed<T>> for Halt {
    ghost from_gives = { λ _ halt. halt ≡ Memory };

    fn from(failed: AllocFailed<T>) -> Halt {
        Halt::from(AllocError::from(failed))
    }
}

impl From<io::Error> for Halt {
    ghost from_gives = { λ e halt. halt ≡ Output e };

    fn from(e: io::Error) -> Halt {
        Halt::Output(e)
    }
}

impl From<Refusal> for Halt {
    ghost from_gives = { λ why halt. halt ≡ Refused why };

    fn from(why: Refusal) -> Halt {
        Halt::Refused(why)
    }
}

// A run over a floor: the notices that are to be delivered, to how many rooms, and who may be polled.
// The runtime goes beside it to each method: as a field it would want a Drop written by hand, and the floor could not be moved out.
#[derive(Drop)]
struct Run<'a, 'n> {
    floor: Floor<'a>,
    notices: &'n [Notice],
    rooms: usize,
    ready: Ready,
}

impl Run<'_, '_> {
    // Polls whoever may be polled until nobody may.
    fn go(&mut self, rt: &impl Print) -> Result<(), Halt>
        ensures { OnOk result (Goes self.old self.new) }
    {
        let most = (self.notices.len() as u64)
            .saturating_mul(POLLS_EACH)
            .saturating_add(POLLS_BESIDES);
        for _ in 0..most {
            let Some(task) = self.ready.next() else {
                return Ok(());
            };
            self.turn(task, rt)?;
        }
        Ok(())
    }

    // One task's turn.
    fn turn(&mut self, task: Task, rt: &impl Print) -> Result<(), Halt>
        ensures { OnOk result (Goes self.old self.new) }
    {
        match task {
            Task::Feed(feed) => self.feed_turn(feed, rt),
            Task::Room(room) => self.room_turn(room, rt),
        }
    }

    // A feed's turn: its next notice, or its end.
    fn feed_turn(&mut self, feed: usize, rt: &impl Print) -> Result<(), Halt>
        ensures { OnOk result (Goes self.old self.new) }
    {
        let task = Task::Feed(feed);
        let sending = self.floor.send_next(self.notices, feed)?;
        println!(rt; "{task} {sending}")?;
        match sending {
            Sending::Sent(_, named) => {
                self.ready.add(task);
                self.ready.wake(self.floor.woken(named), rt)?;
            }
            Sending::Waits(_) => {}
            Sending::Full(_) => self.ready.hold(task),
            Sending::Done => self.close_all(rt)?,
        }
        Ok(())
    }

    // A feed that has no more closes its sender in every room.
    fn close_all(&mut self, rt: &impl Print) -> Result<(), Halt>
        ensures { OnOk result (Goes self.old self.new) }
    {
        for room in 0..self.rooms {
            let named = self.floor.leave(room)?;
            self.ready.wake(self.floor.woken(named), rt)?;
        }
        Ok(())
    }

    // A room's turn: what comes next for it.
    fn room_turn(&mut self, room: usize, rt: &impl Print) -> Result<(), Halt>
        ensures { OnOk result (Goes self.old self.new) }
    {
        let task = Task::Room(room);
        match self.floor.receive_next(room)? {
            ReceivePoll::Element(id, named) => {
                println!(rt; "{task} is given {id}")?;
                self.ready.add(task);
                self.ready.relieve();
                self.ready.wake(self.floor.woken(named), rt)?;
            }
            ReceivePoll::Wait => println!(rt; "{task} waits")?,
            ReceivePoll::End => println!(rt; "{task} has all, and is closed")?,
        }
        Ok(())
    }
}

// What a whole delivery came to: the floor with its book, and whether everything was delivered.
#[derive(Drop)]
pub struct Outcome<'a> {
    pub floor: Floor<'a>,
    // no enum, since callers want the floor whether all was delivered or not
    pub all: bool,
}

// Delivers the notices to their rooms over these memories.
// The memories come as slices and not as banks: a bank that is handed in would have to be in good order.
pub fn deliver<'a, R: Print>(
    heap: Global,
    elements: &'a mut [Cell<u64>],
    entries: &'a mut [Cell<Entry>],
    woken: &'a mut [u32],
    notices: &[Notice],
    feeds: u32,
    rooms: usize,
    rt: &R,
) -> Result<Outcome<'a>, Halt>
    ensures { IfOk result (λ o. o.all ≡ true → Delivered rooms feeds notices.now o.floor.book.items) }
{
    let floor = Floor::open(heap, elements, entries, woken, rooms, feeds)?;
    let ready = Ready::new(feeds as usize, rooms);
    let mut run = Run {
        floor,
        notices,
        rooms,
        ready,
    };
    run.go(rt)?;
    let mut floor = run.floor;
    let all = floor.settle(notices, rooms, feeds as usize)?;
    Ok(Outcome { floor, all })
}
