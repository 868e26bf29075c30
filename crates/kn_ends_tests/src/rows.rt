//! Each call with enough memory, by rows of what an end does and what is heard and known then.

use kn_ends::{
    Carrier, Heard, Inlets, PacketQueue, Told, Who, add_inlet, answer, answer_on, begin, counts,
    deafen, end_stream, feed, finish, is_bare, is_gone, is_live, lose, next_told, note_end,
    note_reset, out, queue, queued, read, reset, take, take_told, took, write,
};
use kn_grpc::{Front, Service, answer_head, call_head, trailers};
use kn_h2::{Conn, H2Event, Role};
use kn_h2_state::Events;
use kn_io::{Blob, NoMemory};
use std::alloc::Global;
use std::test::Fail;

/// A framed message of two bytes, which is no packet, two of them, and what begins one.
const MESSAGE: &[u8] = b"\0\0\0\0\x02hi";

const MESSAGES: &[u8] = b"\0\0\0\0\x02hi\0\0\0\0\x02hi";

const BEGUN: &[u8] = b"\0\0";

/// What begins a message that says that it is compressed.
const COMPRESSED: &[u8] = b"\x01\0\0\0\0";

/// The two ends of a connection.
#[derive(Drop)]
struct Ends {
    client: Box<Carrier>,
    server: Box<Carrier>,
}

fn carrier(alloc: Global, role: Role) -> Result<Box<Carrier>, NoMemory> {
    let carrier = Carrier {
        conn: Conn::new(alloc, role)?,
        lost: false,
        inlets: Inlets::new(alloc),
    };
    Ok(Box::new(alloc, carrier)?)
}

fn fresh(alloc: Global) -> Result<Ends, NoMemory> {
    Ok(Ends {
        client: carrier(alloc, Role::Client)?,
        server: carrier(alloc, Role::Server)?,
    })
}

fn take_out(from: &mut Carrier) {
    let count = out(from).len();
    took(from, count);
}

/// What is due at one end is written, and comes to the other.
fn pass(alloc: Global, from: &mut Carrier, to: &mut Carrier) -> Result<(), NoMemory> {
    write(from, alloc)?;
    feed(to, alloc, out(from))?;
    take_out(from);
    Ok(())
}

fn hear_open(alloc: Global, carrier: &mut Carrier, stream: u32) -> Result<u32, NoMemory> {
    add_inlet(carrier, alloc, stream, Who::Link { link: 1 })?;
    Ok(1)
}

fn hear_text(carrier: &mut Carrier, stream: u32) -> Result<u32, NoMemory> {
    read(carrier, stream)?;
    Ok(3)
}

fn hear_end(carrier: &mut Carrier, stream: u32) -> u32 {
    note_end(carrier, stream);
    4
}

fn hear_reset(alloc: Global, carrier: &mut Carrier, stream: u32) -> u32 {
    note_reset(carrier, alloc, stream);
    5
}

/// What one end told is heard, as a digit: text is read, ends are noted, and what begins a stream belongs to a link.
fn hear(alloc: Global, carrier: &mut Carrier, event: H2Event) -> Result<u32, NoMemory> {
    match event {
        H2Event::Opened { stream, .. } => hear_open(alloc, carrier, stream),
        H2Event::Head { .. } => Ok(2),
        H2Event::Text { stream } => hear_text(carrier, stream),
        H2Event::Ended { stream } => Ok(hear_end(carrier, stream)),
        H2Event::Reset { stream, .. } => Ok(hear_reset(alloc, carrier, stream)),
        H2Event::Away { .. } => Ok(6),
        H2Event::Closed { .. } => Ok(7),
    }
}

fn hear_next(alloc: Global, carrier: &mut Carrier) -> Result<u32, NoMemory> {
    match next_told(carrier) {
        Some(event) => hear(alloc, carrier, event),
        None => Ok(0),
    }
}

fn joined(digits: u32, digit: u32) -> u32 {
    if digit == 0 {
        digits
    } else {
        digits.wrapping_mul(10).wrapping_add(digit)
    }
}

/// All that one end told is heard, and how it was told is noted as digits.
fn hear_all(alloc: Global, carrier: &mut Carrier) -> Result<u32, NoMemory> {
    let mut digits = 0;
    for _event in 0..9 {
        digits = joined(digits, hear_next(alloc, carrier)?);
    }
    Ok(digits)
}

fn up(alloc: Global, ends: &mut Ends) -> Result<u32, NoMemory> {
    pass(alloc, &mut ends.client, &mut ends.server)?;
    hear_all(alloc, &mut ends.server)
}

fn down(alloc: Global, ends: &mut Ends) -> Result<u32, NoMemory> {
    pass(alloc, &mut ends.server, &mut ends.client)?;
    hear_all(alloc, &mut ends.client)
}

fn call(alloc: Global, carrier: &mut Carrier) -> Result<Option<u32>, NoMemory> {
    let head = call_head(alloc, Service::Proxy, "s", "", "")?;
    begin(carrier, alloc, &head, Who::Server)
}

fn reply(alloc: Global, carrier: &mut Carrier) -> Result<(), NoMemory> {
    let head = answer_head(alloc, Service::Proxy, "s", 1)?;
    answer(carrier, alloc, 1, &head)
}

/// A client and a server with one answered stream, and all that was told heard.
fn pair(alloc: Global) -> Result<Ends, NoMemory> {
    let mut ends = fresh(alloc)?;
    call(alloc, &mut ends.client)?;
    up(alloc, &mut ends)?;
    reply(alloc, &mut ends.server)?;
    down(alloc, &mut ends)?;
    Ok(ends)
}

/// What stands at the front of a stream: 0 for no inlet, 1 for less than a message, 2 for a whole one, 3 for a bad one.
fn front(carrier: &Carrier, stream: u32) -> u32 {
    match carrier.inlets.get(stream) {
        None => 0,
        Some(inlet) => match inlet.messages.first() {
            Front::Less => 1,
            Front::Whole { .. } => 2,
            Front::Bad { .. } => 3,
        },
    }
}

fn has_ended(carrier: &Carrier, stream: u32) -> bool {
    match carrier.inlets.get(stream) {
        None => false,
        Some(inlet) => inlet.ended,
    }
}

fn digit(holds: bool) -> u32 {
    if holds { 2 } else { 1 }
}

/// What a carrier knows of stream 1, as digits: what stands at its front, and whether the peer's end was told, nothing is under
/// way, and the stream may still be open: 1 for no, 2 for yes.
fn standing(carrier: &Carrier) -> u32 {
    let digits = joined(front(carrier, 1), digit(has_ended(carrier, 1)));
    joined(
        joined(digits, digit(is_bare(carrier))),
        digit(counts(carrier, 1)),
    )
}

/// What a row of a table does on stream 1.
#[derive(Clone, Copy)]
enum Act {
    /// The client sends bytes, and the server hears.
    Sends(&'static [u8]),
    /// The client gives the stream up.
    Resets,
    /// The server takes the message at the front.
    Takes,
    /// The server ends the stream, and the client hears.
    Finishes,
    /// The server ends the stream, and handles no more of it.
    Drops,
}

fn sends(alloc: Global, ends: &mut Ends, bytes: &[u8]) -> Result<u32, NoMemory> {
    queue(&mut ends.client, 1, bytes)?;
    up(alloc, ends)
}

fn resets(alloc: Global, ends: &mut Ends) -> Result<u32, NoMemory> {
    reset(&mut ends.client, alloc, 1, 8)?;
    up(alloc, ends)
}

fn takes(alloc: Global, ends: &mut Ends) -> Result<u32, NoMemory> {
    take(&mut ends.server, alloc, 1)?;
    Ok(0)
}

fn finishes(alloc: Global, ends: &mut Ends) -> Result<u32, NoMemory> {
    finish(&mut ends.server, 1, trailers(alloc, 0)?);
    down(alloc, ends)
}

fn drops(alloc: Global, ends: &mut Ends) -> Result<u32, NoMemory> {
    end_stream(&mut ends.server, 1, trailers(alloc, 12)?)?;
    down(alloc, ends)
}

/// What is heard then.
fn make(alloc: Global, ends: &mut Ends, act: &Act) -> Result<u32, NoMemory> {
    match act {
        Act::Sends(bytes) => sends(alloc, ends, bytes),
        Act::Resets => resets(alloc, ends),
        Act::Takes => takes(alloc, ends),
        Act::Finishes => finishes(alloc, ends),
        Act::Drops => drops(alloc, ends),
    }
}

fn is_right(
    alloc: Global,
    ends: &mut Ends,
    act: &Act,
    heard: u32,
    known: u32,
) -> Result<bool, NoMemory> {
    Ok(make(alloc, ends, act)? == heard && standing(&ends.server) == known)
}

/// How many rows are as they should be, from the first on: what is done, what is heard, and what the server knows then.
fn count_right(
    alloc: Global,
    ends: &mut Ends,
    rows: &[(Act, u32, u32)],
) -> Result<usize, NoMemory> {
    let mut count = 0usize;
    for (act, heard, known) in rows {
        if !is_right(alloc, ends, act, *heard, *known)? {
            return Ok(count);
        }
        count = count.saturating_add(1);
    }
    Ok(count)
}

#[test]
fn messages_are_taken_one_by_one(rt: HostRuntime) -> Result<(), Fail> {
    let mut ends = pair(rt.alloc())?;
    let rows = [
        (Act::Sends(MESSAGES), 3, 2112),
        (Act::Takes, 0, 2112),
        (Act::Takes, 0, 1122),
    ];
    assert_eq!(rt; count_right(rt.alloc(), &mut ends, &rows)?, 3);
    Ok(())
}

#[test]
fn a_bad_message_ends_its_stream(rt: HostRuntime) -> Result<(), Fail> {
    let mut ends = pair(rt.alloc())?;
    let rows = [(Act::Sends(COMPRESSED), 3, 3112), (Act::Drops, 4, 121)];
    assert_eq!(rt; count_right(rt.alloc(), &mut ends, &rows)?, 2);
    assert!(rt; has_ended(&ends.client, 1));
    Ok(())
}

#[test]
fn a_stream_that_is_given_up(rt: HostRuntime) -> Result<(), Fail> {
    let mut ends = pair(rt.alloc())?;
    let rows = [
        (Act::Sends(BEGUN), 3, 1112),
        (Act::Resets, 5, 1221),
        (Act::Sends(MESSAGE), 0, 1221),
    ];
    assert_eq!(rt; count_right(rt.alloc(), &mut ends, &rows)?, 3);
    assert_eq!(rt; queued(&ends.client, 1), 0);
    Ok(())
}

#[test]
fn a_stream_that_ends(rt: HostRuntime) -> Result<(), Fail> {
    let mut ends = pair(rt.alloc())?;
    let rows = [(Act::Finishes, 4, 1121)];
    assert_eq!(rt; count_right(rt.alloc(), &mut ends, &rows)?, 1);
    assert!(rt; has_ended(&ends.client, 1));
    Ok(())
}

/// The further streams that begin at a client, at a server, and at a client that lost its connection.
fn further_calls(alloc: Global, ends: &mut Ends) -> Result<bool, NoMemory> {
    let first = call(alloc, &mut ends.client)?;
    let second = call(alloc, &mut ends.server)?;
    lose(&mut ends.client);
    let third = call(alloc, &mut ends.client)?;
    Ok(first == Some(3) && second.is_none() && third.is_none())
}

fn deafens(carrier: &mut Carrier) -> Result<bool, NoMemory> {
    deafen(carrier, 1)?;
    Ok(carrier.inlets.get(1).is_none())
}

#[test]
fn calls_of_clients_alone(rt: HostRuntime) -> Result<(), Fail> {
    let mut ends = pair(rt.alloc())?;
    assert!(rt; further_calls(rt.alloc(), &mut ends)?);
    assert!(rt; deafens(&mut ends.server)?);
    Ok(())
}

fn queues(carrier: &mut Carrier) -> Result<bool, NoMemory> {
    queue(carrier, 1, MESSAGE)?;
    Ok(queued(carrier, 1) == 7 && is_live(carrier) && !is_bare(carrier))
}

fn loses(carrier: &mut Carrier) -> bool {
    lose(carrier);
    out(carrier).is_empty() && is_gone(carrier) && is_bare(carrier)
}

#[test]
fn a_lost_connection(rt: HostRuntime) -> Result<(), Fail> {
    let mut ends = pair(rt.alloc())?;
    assert!(rt; queues(&mut ends.client)?);
    assert!(rt; loses(&mut ends.client));
    Ok(())
}

fn two_packets(alloc: Global) -> Result<PacketQueue, NoMemory> {
    let mut packets = PacketQueue::new(alloc);
    packets.push(Blob::of(alloc, b"abc")?)?;
    packets.push(Blob::of(alloc, b"de")?)?;
    Ok(packets)
}

fn begins_with(packets: &mut PacketQueue, want: &[u8]) -> bool {
    match packets.pop() {
        Some(bytes) => bytes.as_slice() == want,
        None => false,
    }
}

#[test]
fn packets_that_wait(rt: HostRuntime) -> Result<(), Fail> {
    let mut packets = two_packets(rt.alloc())?;
    assert!(rt; packets.exceeds(4) && !packets.exceeds(5));
    assert!(rt; begins_with(&mut packets, b"abc"));
    assert!(rt; begins_with(&mut packets, b"de"));
    assert!(rt; packets.is_empty());
    Ok(())
}

fn told_of(alloc: Global, events: Events) -> Result<Told, NoMemory> {
    let mut told = Told::new(alloc);
    told.append(7, events)?;
    Ok(told)
}

fn is_end_of_first(heard: Option<Heard>) -> bool {
    match heard {
        Some(
            Heard {
                conn: 7,
                event: H2Event::Ended { stream: 1 },
            },
        ) => true,
        Some(_) => false,
        None => false,
    }
}

fn tells_an_end(alloc: Global, ends: &mut Ends) -> Result<bool, NoMemory> {
    finish(&mut ends.server, 1, trailers(alloc, 0)?);
    pass(alloc, &mut ends.server, &mut ends.client)?;
    let mut told = told_of(alloc, take_told(&mut ends.client, alloc))?;
    Ok(is_end_of_first(told.pop()) && told.is_empty())
}

#[test]
fn what_connections_told(rt: HostRuntime) -> Result<(), Fail> {
    let mut ends = pair(rt.alloc())?;
    assert!(rt; tells_an_end(rt.alloc(), &mut ends)?);
    assert!(rt; next_told(&mut ends.client).is_none());
    Ok(())
}

/// What a client hears of an answer that the connection is given by itself, as digits.
fn answers_by_itself(alloc: Global) -> Result<u32, NoMemory> {
    let mut ends = fresh(alloc)?;
    call(alloc, &mut ends.client)?;
    up(alloc, &mut ends)?;
    let head = answer_head(alloc, Service::Proxy, "s", 1)?;
    answer_on(&mut ends.server.conn, alloc, 1, &head)?;
    down(alloc, &mut ends)
}

#[test]
fn a_connection_answers_by_itself(rt: HostRuntime) -> Result<(), Fail> {
    assert_eq!(rt; answers_by_itself(rt.alloc())?, 2);
    Ok(())
}
