// What channels do on small memories: the worked runs, and both sides of each limit.
use super::*;
use bank::Cell;
use std::test::Fail;

// Why an opening is refused, if it is.
fn opening(memories: &Memories<u32>, n: usize, senders: u32) -> Option<Refusal> {
    Channels::open(memories, n, senders).err()
}

// A send that is refused.
fn refused(why: Refusal, element: u32) -> Result<SendPoll<u32>, Refused<u32>> {
    Err(Refused { why, element })
}

// Four cells to make a memory of.
fn four<T>() -> [Cell<T>; 4] {
    [Cell::new(), Cell::new(), Cell::new(), Cell::new()]
}

fn memories<'a>(
    cells: &'a mut [Cell<u32>],
    places: &'a mut [Cell<Entry>],
    list: &'a mut [u32],
) -> Memories<'a, u32> {
    Memories {
        elements: Bank::new(cells),
        entries: Bank::new(places),
        woken: Woken { list },
    }
}

// The first two of the woken list, where it has them.
fn front(ms: &Memories<u32>) -> (Option<u32>, Option<u32>) {
    (ms.woken.list.get(0).copied(), ms.woken.list.get(1).copied())
}

#[test]
fn gate(rt: HostRuntime) -> Result<(), Fail> {
    let mut cells = four();
    let mut places = four();
    let mut list = [0; 4];
    let mut ms = memories(&mut cells, &mut places, &mut list);
    let mut ch = Channels::open(&ms, 2, 1)?;
    assert_eq!(rt; ch.send_poll(&mut ms, 0, 1, 10), Ok(SendPoll::Sent(0)));
    assert_eq!(rt; (ch.recount(&ms), ch.count), (1, 1));
    assert_eq!(rt; ch.send_poll(&mut ms, 0, 1, 11), Ok(SendPoll::Sent(0)));
    assert_eq!(rt; (ch.recount(&ms), ch.count), (1, 1));
    assert_eq!(rt; ch.send_poll(&mut ms, 1, 1, 12), Ok(SendPoll::Sent(0)));
    assert_eq!(rt; (ch.recount(&ms), ch.count), (0, 0));
    assert_eq!(rt; ch.send_poll(&mut ms, 0, 7, 13), Ok(SendPoll::Wait(13)));
    assert_eq!(rt;
        ch.receive_poll(&mut ms, 0, 9),
        Ok(ReceivePoll::Element(10, 0))
    );
    assert_eq!(rt;
        ch.receive_poll(&mut ms, 0, 9),
        Ok(ReceivePoll::Element(11, 1))
    );
    assert_eq!(rt; front(&ms), (Some(7), Some(0)));
    assert_eq!(rt; (ch.recount(&ms), ch.count), (1, 1));
    Ok(())
}

#[test]
fn sender_closes_first(rt: HostRuntime) -> Result<(), Fail> {
    let mut cells = four();
    let mut places = four();
    let mut list = [0; 4];
    let mut ms = memories(&mut cells, &mut places, &mut list);
    let mut ch = Channels::open(&ms, 2, 1)?;
    assert_eq!(rt; ch.close_sender(&mut ms, 0), Ok(0));
    assert_eq!(rt; (ch.recount(&ms), ch.count), (1, 1));
    assert_eq!(rt; ch.close_receiver(&mut ms, 0), Ok(0));
    assert_eq!(rt; (ch.recount(&ms), ch.count), (1, 1));
    Ok(())
}

#[test]
fn receiver_closes_first(rt: HostRuntime) -> Result<(), Fail> {
    let mut cells = four();
    let mut places = four();
    let mut list = [0; 4];
    let mut ms = memories(&mut cells, &mut places, &mut list);
    let mut ch = Channels::open(&ms, 2, 1)?;
    assert_eq!(rt; ch.close_receiver(&mut ms, 0), Ok(0));
    assert_eq!(rt; (ch.recount(&ms), ch.count), (1, 1));
    assert_eq!(rt; ch.close_sender(&mut ms, 0), Ok(0));
    assert_eq!(rt; (ch.recount(&ms), ch.count), (1, 1));
    Ok(())
}

#[test]
fn drained(rt: HostRuntime) -> Result<(), Fail> {
    let mut cells = four();
    let mut places = four();
    let mut list = [0; 4];
    let mut ms = memories(&mut cells, &mut places, &mut list);
    let mut ch = Channels::open(&ms, 2, 1)?;
    assert_eq!(rt; ch.send_poll(&mut ms, 0, 1, 10), Ok(SendPoll::Sent(0)));
    assert_eq!(rt; ch.send_poll(&mut ms, 1, 1, 11), Ok(SendPoll::Sent(0)));
    assert_eq!(rt; ch.close_sender(&mut ms, 0), Ok(0));
    assert_eq!(rt;
        ch.receive_poll(&mut ms, 0, 9),
        Ok(ReceivePoll::Element(10, 0))
    );
    assert_eq!(rt; (ch.recount(&ms), ch.count), (0, 0));
    assert_eq!(rt; ch.send_poll(&mut ms, 1, 5, 12), Ok(SendPoll::Wait(12)));
    assert_eq!(rt; ch.receive_poll(&mut ms, 0, 9), Ok(ReceivePoll::End));
    Ok(())
}

#[test]
fn closing_names_its_own(rt: HostRuntime) -> Result<(), Fail> {
    let mut cells = four();
    let mut places = four();
    let mut list = [0; 4];
    let mut ms = memories(&mut cells, &mut places, &mut list);
    let mut ch = Channels::open(&ms, 2, 1)?;
    assert_eq!(rt; ch.send_poll(&mut ms, 0, 1, 10), Ok(SendPoll::Sent(0)));
    assert_eq!(rt; ch.send_poll(&mut ms, 1, 1, 11), Ok(SendPoll::Sent(0)));
    assert_eq!(rt; ch.send_poll(&mut ms, 0, 7, 12), Ok(SendPoll::Wait(12)));
    assert_eq!(rt; ch.send_poll(&mut ms, 1, 8, 13), Ok(SendPoll::Wait(13)));
    assert_eq!(rt; ch.close_receiver(&mut ms, 0), Ok(1));
    assert_eq!(rt; front(&ms), (Some(7), Some(0)));
    assert_eq!(rt;
        ch.receive_poll(&mut ms, 1, 9),
        Ok(ReceivePoll::Element(11, 1))
    );
    assert_eq!(rt; front(&ms), (Some(8), Some(0)));
    assert_eq!(rt; ms.elements.free(), 4);
    Ok(())
}

#[test]
fn no_channels(rt: HostRuntime) -> Result<(), Fail> {
    let mut cells = four();
    let mut places = four();
    let mut list = [0; 4];
    let mut ms = memories(&mut cells, &mut places, &mut list);
    let mut ch = Channels::open(&ms, 0, 1)?;
    assert_eq!(rt; (ch.recount(&ms), ch.count), (0, 0));
    assert_eq!(rt;
        ch.send_poll(&mut ms, 0, 1, 10),
        refused(Refusal::Range, 10)
    );
    Ok(())
}

#[test]
fn how_many_channels_and_senders(rt: HostRuntime) {
    let mut cells = four();
    let mut places = four();
    let mut list = [0; 4];
    let ms = memories(&mut cells, &mut places, &mut list);
    assert_eq!(rt; (opening(&ms, 0, 1), opening(&ms, 1, 1)), (None, None));
    assert_eq!(rt;
        (opening(&ms, 32, 1), opening(&ms, 33, 1)),
        (None, Some(Refusal::Range))
    );
    assert_eq!(rt;
        (opening(&ms, 1, 0), opening(&ms, 1, 1)),
        (Some(Refusal::Range), None)
    );
    assert_eq!(rt;
        (opening(&ms, 1, 32), opening(&ms, 1, 33)),
        (None, Some(Refusal::Range))
    );
}

#[test]
fn lengths_at_opening(rt: HostRuntime) {
    let mut cells = four();
    let mut places = four();
    let mut list = [0; 3];
    let ms = memories(&mut cells, &mut places, &mut list);
    // the woken list is one too short; that comes before a number out of range
    assert_eq!(rt;
        (opening(&ms, 2, 1), opening(&ms, 33, 0)),
        (Some(Refusal::Lengths), Some(Refusal::Lengths))
    );
    let none = memories(&mut [], &mut [], &mut []);
    assert_eq!(rt; opening(&none, 2, 1), Some(Refusal::Lengths));
    assert!(rt; within_limits(1, 1, 1) && within_limits(65535, 4096, 4096));
    assert!(rt; !within_limits(0, 1, 1) && !within_limits(1, 0, 1));
    assert!(rt; !within_limits(65536, 1, 1) && !within_limits(1, 4097, 4097));
    assert!(rt; !within_limits(1, 2, 1));
}

#[test]
fn lengths_later(rt: HostRuntime) -> Result<(), Fail> {
    let mut cells = four();
    let mut places = four();
    let mut list = [0; 4];
    let ms = memories(&mut cells, &mut places, &mut list);
    let mut ch = Channels::open(&ms, 1, 1)?;
    let mut more = [Cell::new()];
    let mut same = four();
    let mut long = [0; 4];
    let mut other = memories(&mut more, &mut same, &mut long);
    assert_eq!(rt;
        ch.send_poll(&mut other, 9, 1, 10),
        refused(Refusal::Lengths, 10)
    );
    assert_eq!(rt; ch.receive_poll(&mut other, 9, 1), Err(Refusal::Lengths));
    assert_eq!(rt; ch.close_sender(&mut other, 9), Err(Refusal::Lengths));
    assert_eq!(rt; ch.close_receiver(&mut other, 9), Err(Refusal::Lengths));
    Ok(())
}

#[test]
fn a_woken_list_too_short_later(rt: HostRuntime) -> Result<(), Fail> {
    let mut cells = four();
    let mut places = four();
    let mut list = [0; 4];
    let ms = memories(&mut cells, &mut places, &mut list);
    let mut ch = Channels::open(&ms, 1, 1)?;
    let mut short = [0; 3];
    let Memories {
        elements,
        entries,
        woken: _,
    } = ms;
    let mut ms = Memories {
        elements,
        entries,
        woken: Woken { list: &mut short },
    };
    assert_eq!(rt;
        ch.send_poll(&mut ms, 0, 1, 10),
        refused(Refusal::Lengths, 10)
    );
    Ok(())
}

#[test]
fn out_of_range(rt: HostRuntime) -> Result<(), Fail> {
    let mut cells = four();
    let mut places = four();
    let mut list = [0; 4];
    let mut ms = memories(&mut cells, &mut places, &mut list);
    let mut ch = Channels::open(&ms, 2, 1)?;
    assert_eq!(rt;
        ch.send_poll(&mut ms, 2, 1, 10),
        refused(Refusal::Range, 10)
    );
    assert_eq!(rt; ch.receive_poll(&mut ms, 2, 1), Err(Refusal::Range));
    assert_eq!(rt; ch.close_sender(&mut ms, 2), Err(Refusal::Range));
    assert_eq!(rt; ch.close_receiver(&mut ms, 2), Err(Refusal::Range));
    assert_eq!(rt; ch.send_poll(&mut ms, 1, 1, 10), Ok(SendPoll::Sent(0)));
    Ok(())
}

#[test]
fn closed_sides(rt: HostRuntime) -> Result<(), Fail> {
    let mut cells = four();
    let mut places = four();
    let mut list = [0; 4];
    let mut ms = memories(&mut cells, &mut places, &mut list);
    let mut ch = Channels::open(&ms, 2, 1)?;
    assert_eq!(rt; ch.close_receiver(&mut ms, 0), Ok(0));
    assert_eq!(rt; ch.send_poll(&mut ms, 0, 1, 10), Ok(SendPoll::Closed(10)));
    assert_eq!(rt; ch.receive_poll(&mut ms, 0, 1), Err(Refusal::Closed));
    assert_eq!(rt; ch.close_receiver(&mut ms, 0), Err(Refusal::Closed));
    assert_eq!(rt; ch.close_sender(&mut ms, 0), Ok(0));
    assert_eq!(rt;
        ch.send_poll(&mut ms, 0, 1, 10),
        refused(Refusal::Closed, 10)
    );
    assert_eq!(rt; ch.close_sender(&mut ms, 0), Err(Refusal::Closed));
    Ok(())
}

#[test]
fn the_last_sender_counts(rt: HostRuntime) -> Result<(), Fail> {
    let mut cells = four();
    let mut places = four();
    let mut list = [0; 4];
    let mut ms = memories(&mut cells, &mut places, &mut list);
    let mut ch = Channels::open(&ms, 1, 2)?;
    assert_eq!(rt; ch.receive_poll(&mut ms, 0, 5), Ok(ReceivePoll::Wait));
    assert_eq!(rt; ch.close_sender(&mut ms, 0), Ok(0));
    assert_eq!(rt; (ch.recount(&ms), ch.count), (1, 1));
    assert_eq!(rt; ch.close_sender(&mut ms, 0), Ok(1));
    assert_eq!(rt; front(&ms), (Some(5), Some(0)));
    assert_eq!(rt; (ch.recount(&ms), ch.count), (0, 0));
    assert_eq!(rt; ch.receive_poll(&mut ms, 0, 5), Ok(ReceivePoll::End));
    Ok(())
}

#[test]
fn the_last_cell(rt: HostRuntime) -> Result<(), Fail> {
    let mut cells = [Cell::new()];
    let mut places = four();
    let mut list = [0; 4];
    let mut ms = memories(&mut cells, &mut places, &mut list);
    let mut ch = Channels::open(&ms, 2, 1)?;
    assert_eq!(rt; ch.send_poll(&mut ms, 0, 1, 10), Ok(SendPoll::Sent(0)));
    assert_eq!(rt;
        ch.send_poll(&mut ms, 0, 1, 11),
        refused(Refusal::Cells, 11)
    );
    assert_eq!(rt;
        ch.receive_poll(&mut ms, 0, 9),
        Ok(ReceivePoll::Element(10, 0))
    );
    assert_eq!(rt; ch.send_poll(&mut ms, 0, 1, 11), Ok(SendPoll::Sent(0)));
    Ok(())
}

// Where the gate is shut a send waits, though no cell is free either.
#[test]
fn the_gate_comes_before_the_cells(rt: HostRuntime) -> Result<(), Fail> {
    let mut cells = [Cell::new()];
    let mut places = four();
    let mut list = [0; 4];
    let mut ms = memories(&mut cells, &mut places, &mut list);
    let mut ch = Channels::open(&ms, 1, 1)?;
    assert_eq!(rt; ch.send_poll(&mut ms, 0, 1, 10), Ok(SendPoll::Sent(0)));
    assert_eq!(rt; (ch.count, ms.elements.free()), (0, 0));
    assert_eq!(rt; ch.send_poll(&mut ms, 0, 7, 11), Ok(SendPoll::Wait(11)));
    Ok(())
}

#[test]
fn the_last_waiting_place(rt: HostRuntime) -> Result<(), Fail> {
    let mut cells = four();
    let mut places = [Cell::new()];
    let mut list = [0; 1];
    let mut ms = memories(&mut cells, &mut places, &mut list);
    let mut ch = Channels::open(&ms, 1, 1)?;
    assert_eq!(rt; ch.receive_poll(&mut ms, 0, 5), Ok(ReceivePoll::Wait));
    assert_eq!(rt; ch.receive_poll(&mut ms, 0, 6), Err(Refusal::Places));
    assert_eq!(rt; ch.send_poll(&mut ms, 0, 1, 10), Ok(SendPoll::Sent(1)));
    assert_eq!(rt; front(&ms), (Some(5), None));
    assert_eq!(rt; ch.send_poll(&mut ms, 0, 7, 11), Ok(SendPoll::Wait(11)));
    assert_eq!(rt;
        ch.send_poll(&mut ms, 0, 8, 12),
        refused(Refusal::Places, 12)
    );
    Ok(())
}

// Two who wait are named in order, and the rest of the woken list stays.
#[test]
fn the_rest_of_the_woken_list_stays(rt: HostRuntime) -> Result<(), Fail> {
    let mut cells = four();
    let mut places = [Cell::new(), Cell::new()];
    let mut list = [91, 92, 93];
    let mut ms = memories(&mut cells, &mut places, &mut list);
    let mut ch = Channels::open(&ms, 1, 1)?;
    assert_eq!(rt; ch.receive_poll(&mut ms, 0, 5), Ok(ReceivePoll::Wait));
    assert_eq!(rt; ch.receive_poll(&mut ms, 0, 6), Ok(ReceivePoll::Wait));
    assert_eq!(rt; front(&ms), (Some(91), Some(92)));
    assert_eq!(rt; ch.send_poll(&mut ms, 0, 1, 10), Ok(SendPoll::Sent(2)));
    assert_eq!(rt; front(&ms), (Some(5), Some(6)));
    assert_eq!(rt; ms.woken.list.get(2).copied(), Some(93));
    Ok(())
}

// Who waits to receive stays when the receiver closes, and is named when the last sender does.
#[test]
fn receivers_stay(rt: HostRuntime) -> Result<(), Fail> {
    let mut cells = four();
    let mut places = four();
    let mut list = [0; 4];
    let mut ms = memories(&mut cells, &mut places, &mut list);
    let mut ch = Channels::open(&ms, 2, 1)?;
    assert_eq!(rt; ch.receive_poll(&mut ms, 0, 5), Ok(ReceivePoll::Wait));
    assert_eq!(rt; ch.close_receiver(&mut ms, 0), Ok(0));
    assert_eq!(rt; (front(&ms), ms.entries.free()), ((Some(0), Some(0)), 3));
    assert_eq!(rt; ch.close_sender(&mut ms, 0), Ok(1));
    assert_eq!(rt; (front(&ms), ms.entries.free()), ((Some(5), Some(0)), 4));
    Ok(())
}
