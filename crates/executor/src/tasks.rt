// Tasks, and who of them may be polled.
use std::{fmt, io};

// The wakers of feeds begin at 0, those of rooms here.
const FIRST_ROOM: usize = 32;

// A task by its number. Feeds come before rooms, as their wakers do.
#[derive(Clone, Copy, PartialEq, Eq)]
pub enum Task {
    Feed(usize),
    Room(usize),
}

impl Task {
    // The waker of the task.
    pub fn waker(self) -> u32 {
        let number = match self {
            Task::Feed(feed) => feed,
            Task::Room(room) => room.saturating_add(FIRST_ROOM),
        };
        u32::try_from(number).unwrap_or(u32::MAX)
    }
}

// The task of a waker.
impl From<u32> for Task {
    fn from(waker: u32) -> Task {
        let number = waker as usize;
        match number.checked_sub(FIRST_ROOM) {
            Some(room) => Task::Room(room),
            None => Task::Feed(number),
        }
    }
}

impl fmt::Display for Task {
    fn fmt<W: fmt::Write>(&self, f: &mut fmt::Formatter<W>) -> fmt::Result {
        match self {
            Task::Feed(feed) => write!(f, "feed {feed}"),
            Task::Room(room) => write!(f, "room {room}"),
        }
    }
}

// A set of tasks: a bit for each waker below 64, so that it takes no heap. The lowest bit is the first task's.
#[derive(Clone, Copy)]
struct Tasks(u64);

impl Tasks {
    // A task whose waker has no bit is nobody's, and stays out.
    fn insert(&mut self, task: Task) {
        self.0 |= 1u64.checked_shl(task.waker()).unwrap_or(0);
    }

    // The first task, which is taken out.
    fn pop_first(&mut self) -> Option<Task> {
        let waker = self.0.trailing_zeros();
        // its bit is the lowest
        self.0 &= self.0.wrapping_sub(1);
        (waker < u64::BITS).then_some(Task::from(waker))
    }

    // All of the others come in, and none is left there.
    fn append(&mut self, others: &mut Tasks) {
        self.0 |= others.0;
        others.0 = 0;
    }
}

// Who may be polled, and which feeds found the memory full.
#[derive(Clone, Copy)]
pub struct Ready {
    tasks: Tasks,
    full: Tasks,
}

impl Ready {
    // All feeds and rooms may be polled.
    pub fn new(feeds: usize, rooms: usize) -> Ready {
        let mut tasks = Tasks(0);
        let feeds = (0..feeds).map(Task::Feed);
        let rooms = (0..rooms).map(Task::Room);
        for task in feeds.chain(rooms) {
            tasks.insert(task);
        }
        Ready {
            tasks,
            full: Tasks(0),
        }
    }

    // A task may be polled.
    pub fn add(&mut self, task: Task) {
        self.tasks.insert(task);
    }

    // A feed tries again once something was taken out of the memory.
    pub fn hold(&mut self, feed: Task) {
        self.full.insert(feed);
    }

    // Something was taken out.
    pub fn relieve(&mut self) {
        self.tasks.append(&mut self.full);
    }

    // The first task that may be polled, which is then not polled again until it may.
    pub fn next(&mut self) -> Option<Task> {
        self.tasks.pop_first()
    }

    // The tasks whose wakers were named are told, and may be polled.
    pub fn wake(&mut self, named: &[u32], rt: &impl Print) -> io::Result<()> {
        for waker in named {
            let task = Task::from(*waker);
            self.add(task);
            println!(rt; "    wakes {task}")?;
        }
        Ok(())
    }
}
