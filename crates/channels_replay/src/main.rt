// Replays scripts of channel calls from standard input, and prints what the channels answer: one line for each call.
//
//     o n m cells places    open n channels with m senders each, over memories of these lengths; ends the script before
//     s k w x               send poll of the element x on the channel k, with the waker w
//     r k w                 receive poll on the channel k, with the waker w
//     c k                   close one sender of the channel k
//     x k                   close the receiver of the channel k
//
// An answer is `opened`, `sent`, `wait`, `closed`, `element x`, `end`, `done` or `refused` and its number; where wakers are
// named, ` wake` and they follow in order. A line that is no call, or a call with no channels open, is answered `bad`.
#![tactic(auto)]

ghost use Rattle.std.specs.Prelude.{◌≡◌, ◌≤◌, IfSome};
ghost use Rattle.channels_replay.specs.Replies.{with_named, send_reply, receive_reply, close_reply, Performs};
ghost use Rattle.distributor_channels.specs.Calls.{seen};

use bank::{Bank, memory};
use distributor_channels::{Channels, Memories, ReceivePoll, Refused, SendPoll, Woken};
use refusal::Refusal;
use std::alloc::Global;
use std::io::{BufRead, BufReader, BufWriter, Write};
use std::str::SplitWhitespace;
use std::{fmt, io};

// The longest memory that a script may ask for: one cell more than the channels accept.
const LONGEST: u32 = 65536;

// What a script begins with.
#[derive(Clone, Copy)]
struct Opening {
    n: u32,
    senders: u32,
    cells: u32,
    places: u32,
}

// A call on open channels.
#[derive(Clone, Copy)]
enum Call {
    Send {
        channel: usize,
        waker: u32,
        element: u32,
    },
    Receive {
        channel: usize,
        waker: u32,
    },
    CloseSender {
        channel: usize,
    },
    CloseReceiver {
        channel: usize,
    },
}

// What a line says, if it says anything.
#[derive(Clone, Copy)]
enum Line {
    Open(Opening),
    Act(Call),
}

// What a call is answered.
#[derive(Clone, Copy)]
enum Answer {
    Sent,
    Wait,
    Closed,
    Element(u32),
    End,
    Done,
    Refused(Refusal),
}

// An answer, and how many wakers stand at the front of the woken list.
#[derive(Clone, Copy)]
struct Reply {
    answer: Answer,
    named: usize,
}

impl fmt::Display for Answer {
    fn fmt<W: fmt::Write>(&self, f: &mut fmt::Formatter<W>) -> fmt::Result {
        match self {
            Answer::Sent => write!(f, "sent"),
            Answer::Wait => write!(f, "wait"),
            Answer::Closed => write!(f, "closed"),
            Answer::Element(x) => write!(f, "element {x}"),
            Answer::End => write!(f, "end"),
            Answer::Done => write!(f, "done"),
            Answer::Refused(why) => write!(f, "{why}"),
        }
    }
}

// An answer that names nobody.
impl From<Answer> for Reply {
    ghost from_gives = { λ answer reply. reply ≡ with_named answer 0 };

    fn from(answer: Answer) -> Reply {
        Reply { answer, named: 0 }
    }
}

// The reply to a send poll.
impl From<Result<SendPoll<u32>, Refused<u32>>> for Reply {
    ghost from_gives = { λ polled reply. reply ≡ send_reply polled };

    fn from(polled: Result<SendPoll<u32>, Refused<u32>>) -> Reply {
        match polled {
            Ok(SendPoll::Sent(named)) => Reply {
                answer: Answer::Sent,
                named,
            },
            Ok(SendPoll::Wait(_)) => Answer::Wait.into(),
            Ok(SendPoll::Closed(_)) => Answer::Closed.into(),
            Err(refused) => Answer::Refused(refused.why).into(),
        }
    }
}

// The reply to a receive poll.
impl From<Result<ReceivePoll<u32>, Refusal>> for Reply {
    ghost from_gives = { λ polled reply. reply ≡ receive_reply polled };

    fn from(polled: Result<ReceivePoll<u32>, Refusal>) -> Reply {
        match polled {
            Ok(ReceivePoll::Element(x, named)) => Reply {
                answer: Answer::Element(x),
                named,
            },
            Ok(ReceivePoll::Wait) => Answer::Wait.into(),
            Ok(ReceivePoll::End) => Answer::End.into(),
            Err(why) => Answer::Refused(why).into(),
        }
    }
}

// The reply to a close.
impl From<Result<usize, Refusal>> for Reply {
    ghost from_gives = { λ closed reply. reply ≡ close_reply closed };

    fn from(closed: Result<usize, Refusal>) -> Reply {
        match closed {
            Ok(named) => Reply {
                answer: Answer::Done,
                named,
            },
            Err(why) => Answer::Refused(why).into(),
        }
    }
}

// The next word, as a number of at most `most`.
fn number(words: &mut SplitWhitespace, most: u32) -> Option<u32>
    ensures { IfSome result (λ x. x ≤ most) }
{
    words.next()?.parse().ok().filter(|x| *x <= most)
}

// The next word, as a channel.
fn channel(words: &mut SplitWhitespace) -> Option<usize> {
    number(words, u32::MAX).map(|k| k as usize)
}

// What the line `text` says: a first word that tells which, and the numbers behind it.
fn read(text: &str) -> Option<Line> {
    let mut words = text.split_whitespace();
    let line = match words.next()? {
        "o" => Line::Open(Opening {
            n: number(&mut words, u32::MAX)?,
            senders: number(&mut words, u32::MAX)?,
            cells: number(&mut words, LONGEST)?,
            places: number(&mut words, LONGEST)?,
        }),
        "s" => Line::Act(Call::Send {
            channel: channel(&mut words)?,
            waker: number(&mut words, u32::MAX)?,
            element: number(&mut words, u32::MAX)?,
        }),
        "r" => Line::Act(Call::Receive {
            channel: channel(&mut words)?,
            waker: number(&mut words, u32::MAX)?,
        }),
        "c" => Line::Act(Call::CloseSender {
            channel: channel(&mut words)?,
        }),
        "x" => Line::Act(Call::CloseReceiver {
            channel: channel(&mut words)?,
        }),
        _ => return None,
    };
    words.next().is_none().then_some(line)
}

// Makes a call.
fn perform(channels: &mut Channels, memories: &mut Memories<u32>, call: Call) -> Reply
    ensures { Performs call channels.old (seen memories.old) channels.new (seen memories.new) result }
{
    match call {
        Call::Send {
            channel,
            waker,
            element,
        } => channels.send_poll(memories, channel, waker, element).into(),
        Call::Receive { channel, waker } => channels.receive_poll(memories, channel, waker).into(),
        Call::CloseSender { channel } => channels.close_sender(memories, channel).into(),
        Call::CloseReceiver { channel } => channels.close_receiver(memories, channel).into(),
    }
}

// Prints a reply, with the wakers that it names. No Display, since they stand in the woken list and not in the reply.
fn print<W: Write>(out: &mut W, reply: Reply, woken: &[u32]) -> io::Result<()> {
    let answer = reply.answer;
    write!(out, "{answer}")?;
    if reply.named > 0 {
        write!(out, " wake")?;
    }
    for waker in woken.iter().take(reply.named) {
        write!(out, " {waker}")?;
    }
    writeln!(out)
}

// Answers lines that find no channels open.
fn all_bad<W: Write>(out: &mut W, lines: &[Option<Line>]) -> io::Result<()> {
    for _ in lines {
        writeln!(out, "bad")?;
    }
    Ok(())
}

// Opens channels and makes the calls of a script on them.
fn run<W: Write>(
    out: &mut W,
    heap: Global,
    opening: Opening,
    lines: &[Option<Line>],
) -> io::Result<()> {
    let mut cells = memory(heap, opening.cells as usize)?;
    let mut places = memory(heap, opening.places as usize)?;
    let mut list = vec![in heap; 0; opening.places as usize]?;
    let mut memories = Memories {
        elements: Bank::new(&mut cells),
        entries: Bank::new(&mut places),
        woken: Woken { list: &mut list },
    };
    let mut channels = match Channels::open(&memories, opening.n as usize, opening.senders) {
        Ok(channels) => channels,
        Err(why) => {
            print(out, Answer::Refused(why).into(), &[])?;
            return all_bad(out, lines);
        }
    };
    writeln!(out, "opened")?;
    for line in lines {
        match line {
            Some(Line::Act(call)) => {
                let reply = perform(&mut channels, &mut memories, *call);
                print(out, reply, memories.woken.list)?;
            }
            _ => writeln!(out, "bad")?,
        }
    }
    Ok(())
}

// Runs a script: an opening with what follows it, or what stands before the first one.
fn script<W: Write>(out: &mut W, heap: Global, lines: &[Option<Line>]) -> io::Result<()> {
    match lines {
        [Some(Line::Open(opening)), calls @ ..] => run(out, heap, *opening, calls),
        _ => all_bad(out, lines),
    }
}

fn main(rt: HostRuntime) -> io::Result<()> {
    let heap = rt.alloc();
    let mut out = BufWriter::new(heap, rt.stdout())?;
    let mut lines = Vec::new(heap);
    for text in BufReader::new(heap, rt.stdin())?.lines(heap) {
        let line = read(text?.as_str());
        if matches!(line, Some(Line::Open(_))) {
            script(&mut out, heap, &lines)?;
            lines.clear();
        }
        lines.push(line)?;
    }
    script(&mut out, heap, &lines)?;
    out.flush()
}
