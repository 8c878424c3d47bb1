// Dispatch: delivers notices from their feeds to their rooms.
//
// Reads notices from standard input, one a line: `feed room id`, in decimal, feed and room from 0 to 31. Prints each action
// as it happens, and at the end what each room was given.
#![tactic(auto)]

use bank::memory;
use distributor_channels::Entry;
use executor::run::deliver;
use executor::{Delivery, Notice};
use std::io::{BufRead, BufReader};
use std::str::FromStr;
use std::{fmt, io};

// The memories are small, so that the gate shuts and cells run out.
const CELLS: usize = 8;

const PLACES: usize = 64;

// Feeds and rooms are numbered below this.
const MOST: usize = 32;

// What a line is that has words, but is no notice.
#[derive(Clone, Copy)]
struct NotANotice;

// The number that a word is.
fn number<T: FromStr>(word: Option<&str>) -> Result<T, NotANotice>
where
    T::Err: Drop,
{
    word.and_then(|text| text.parse().ok()).ok_or(NotANotice)
}

// Reads `feed room id`, or no notice where the line is empty.
fn read(line: &str) -> Result<Option<Notice>, NotANotice> {
    let mut words = line.split_whitespace();
    let Some(first) = words.next() else {
        return Ok(None);
    };
    let feed = number(Some(first))?;
    let room = number(words.next())?;
    let id = number(words.next())?;
    if feed >= MOST || room >= MOST || words.next().is_some() {
        return Err(NotANotice);
    }
    Ok(Some(Notice { feed, room, id }))
}

// Reads all lines; a line that is no text is no notice either.
fn read_all(rt: &HostRuntime) -> anyhow::Result<Vec<Notice>> {
    let mut notices = Vec::new(rt.alloc());
    let lines = BufReader::new(rt.alloc(), rt.stdin())?.lines(rt.alloc());
    for (at, line) in (1u64..).zip(lines) {
        let notice = match line {
            Ok(text) => read(text.as_str()),
            Err(e) if e.kind() == io::ErrorKind::InvalidData => Err(NotANotice),
            Err(e) => return Err(e.into()),
        };
        match notice {
            Ok(notice) => notices.extend(notice)?,
            Err(NotANotice) => println!(rt; "line {at} is no notice, and is passed over")?,
        }
    }
    Ok(notices)
}

// The row of the table for one room.
#[derive(Clone, Copy)]
struct Row<'a> {
    room: usize,
    book: &'a [Delivery],
}

impl fmt::Display for Row<'_> {
    fn fmt<W: fmt::Write>(&self, f: &mut fmt::Formatter<W>) -> fmt::Result {
        write!(f, "  room {:>2}:", self.room)?;
        for delivery in self.book.iter().filter(|d| d.room == self.room) {
            write!(f, " {}", delivery.id)?;
        }
        Ok(())
    }
}

// What each room was given, in order.
fn show(rt: &HostRuntime, rooms: usize, book: &[Delivery]) -> io::Result<()> {
    println!(rt; "delivered, room by room, in order:")?;
    for room in 0..rooms {
        let row = Row { room, book };
        println!(rt; "{row}")?;
    }
    Ok(())
}

// Delivers the notices, and prints what came of it.
fn dispatch(rt: &HostRuntime, notices: &[Notice]) -> anyhow::Result<()> {
    let heap = rt.alloc();
    let feeds = notices.iter().map(|notice| notice.feed).max();
    let rooms = notices.iter().map(|notice| notice.room).max();
    let feeds = feeds.map_or(0, |highest| highest.saturating_add(1));
    let rooms = rooms.map_or(0, |highest| highest.saturating_add(1));
    let mut elements = memory::<u64>(heap, CELLS)?;
    let mut entries = memory::<Entry>(heap, PLACES)?;
    let mut woken = vec![in heap; 0u32; PLACES]?;
    let outcome = deliver(
        heap,
        &mut elements,
        &mut entries,
        &mut woken,
        notices,
        u32::try_from(feeds).unwrap_or(u32::MAX),
        rooms,
        rt,
    )?;
    let book = outcome.floor.deliveries();
    show(rt, rooms, book)?;
    let given = book.len();
    let count = notices.len();
    let rest = if outcome.all { "nothing" } else { "the rest" };
    println!(rt; "{given} of {count} delivered, {rest} is left")?;
    Ok(())
}

fn main(rt: HostRuntime) -> anyhow::Result<()> {
    let notices = read_all(&rt)?;
    if notices.is_empty() {
        println!(rt; "no notice, nothing to deliver")?;
        return Ok(());
    }
    dispatch(&rt, &notices)
}
