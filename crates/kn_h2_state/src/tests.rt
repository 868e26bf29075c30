use crate::*;
use kn_windows::Window;
use std::alloc::Global;
use std::test::Fail;

const SERVER_OPENS: [u8; 34] =
    *b"\x00\x00\x0c\x04\x00\x00\x00\x00\x00\x00\x03\x00\x00\x00\x64\x00\x06\x00\x00\x40\x00\x00\x00\x04\x08\x00\x00\x00\x00\x00\x00\x62\xff\x9d";

const CLIENT_OPENS: [u8; 58] =
    *b"PRI * HTTP/2.0\r\n\r\nSM\r\n\r\n\x00\x00\x0c\x04\x00\x00\x00\x00\x00\x00\x02\x00\x00\x00\x00\x00\x06\x00\x00\x40\x00\x00\x00\x04\x08\x00\x00\x00\x00\x00\x00\x62\xff\x9d";

/// A stream at its beginning.
fn stream(alloc: Global, number: u32) -> Stream {
    Stream {
        number,
        receive: Window::new(STREAM_WINDOW),
        send: Window::new(DEFAULT_WINDOW),
        text: ByteQueue::new(alloc),
        owed: 0,
        queue: ByteQueue::new(alloc),
        answered: false,
        peer_open: true,
        own_open: true,
        finish: None,
        resets: false,
    }
}

/// What waits once so many bytes were taken.
fn took(out: &mut Outgoing, count: usize) -> &[u8] {
    if count <= out.len() {
        out.took(count);
    }
    out.as_slice()
}

/// The code of the next event, if it says that the connection failed.
fn closed(state: &mut State) -> Option<u32> {
    match state.events.pop() {
        Some(H2Event::Closed { code }) => Some(code),
        Some(_) => None,
        None => None,
    }
}

#[test]
fn opening_bytes(rt: HostRuntime) -> Result<(), Fail> {
    let server = State::new(rt.alloc(), Role::Server)?;
    assert_eq!(rt; server.out.as_slice(), SERVER_OPENS.as_slice());
    let client = State::new(rt.alloc(), Role::Client)?;
    assert_eq!(rt; client.out.as_slice(), CLIENT_OPENS.as_slice());
    assert_eq!(rt; client.out.reply_bytes(), 0);
    assert_eq!(rt; client.receive.left(), 6_553_500);
    Ok(())
}

#[test]
fn replies_are_counted_while_they_wait(rt: HostRuntime) -> Result<(), Fail> {
    let mut out = Outgoing::new(rt.alloc());
    out.put(true, b"reply")?;
    out.put(false, b"text")?;
    out.put(true, b"again")?;
    // After each count, how many bytes of reply frames wait.
    let table = [(0, 10), (3, 7), (3, 5), (3, 5), (4, 1), (1, 0), (0, 0)];
    for (count, left) in table {
        took(&mut out, count);
        assert_eq!(rt; out.reply_bytes(), left);
    }
    assert_eq!(rt; out.len(), 0);
    Ok(())
}

#[test]
fn too_many_replies(rt: HostRuntime) -> Result<(), Fail> {
    let mut state = State::new(rt.alloc(), Role::Server)?;
    for _ in 0..3_855 {
        reply_frame(&mut state, 6, 1, 0, b"pingpong")?;
    }
    assert_eq!(rt; state.out.reply_bytes(), 65_535);
    assert_eq!(rt; state.failed, None);
    reply_reset(&mut state, 1, 8)?;
    assert_eq!(rt; state.failed, Some(11));
    assert_eq!(rt; state.out.reply_bytes(), 65_535);
    assert_eq!(rt; closed(&mut state), Some(11));
    assert_eq!(rt;
        took(&mut state.out, 34 + 65_535),
        b"\x00\x00\x08\x07\x00\x00\x00\x00\x00\x00\x00\x00\x00\x00\x00\x00\x0b".as_slice()
    );
    Ok(())
}

#[test]
fn a_goaway_names_the_highest_stream_of_the_peer(rt: HostRuntime) -> Result<(), Fail> {
    for (role, last) in [(Role::Server, 7), (Role::Client, 0)] {
        let mut state = State::new(rt.alloc(), role)?;
        let opened = state.out.len();
        state.opened = 7;
        fail(&mut state, 1)?;
        assert_eq!(rt;
            took(&mut state.out, opened),
            [0, 0, 8, 7, 0, 0, 0, 0, 0, 0, 0, 0, last, 0, 0, 0, 1].as_slice()
        );
    }
    Ok(())
}

#[test]
fn streams_by_their_numbers(rt: HostRuntime) -> Result<(), Fail> {
    let mut streams = Streams::new(rt.alloc());
    for number in [1, 3, 5] {
        streams.push(stream(rt.alloc(), number))?;
    }
    for number in [1, 5] {
        if let Some(stream) = streams.get_mut(number) {
            stream.peer_open = false;
            stream.own_open = false;
        }
    }
    if let Some(stream) = streams.get_mut(5) {
        stream.text.append(b"unread")?;
    }
    streams.tidy();
    assert_eq!(rt; streams.open_count(), 1);
    for (number, is_there) in [(1, false), (2, false), (3, true), (5, true), (7, false)] {
        assert_eq!(rt; streams.get(number).is_some(), is_there, "{number}");
    }
    Ok(())
}

#[test]
fn header_blocks_after_a_fault(rt: HostRuntime) -> Result<(), Fail> {
    let mut decoder = HeadDecoder::new(rt.alloc());
    assert_eq!(rt; decoder.block(rt.alloc(), b"\x82\x86").is_ok(), true);
    assert_eq!(rt; decoder.block(rt.alloc(), b"\x80").is_err(), true);
    assert_eq!(rt; decoder.block(rt.alloc(), b"\x82").is_ok(), true);
    Ok(())
}

#[test]
fn a_queue_of_bytes(rt: HostRuntime) -> Result<(), Fail> {
    let mut queue = ByteQueue::new(rt.alloc());
    for _ in 0..20_000 {
        queue.append(b"ten bytes.")?;
    }
    for (count, left) in [(199_991, 9), (9, 0)] {
        if count <= queue.len() {
            queue.advance(count);
        }
        assert_eq!(rt; queue.len(), left);
    }
    queue.append(b"more")?;
    assert_eq!(rt; queue.as_slice(), b"more".as_slice());
    Ok(())
}
