//! Heads from the standards, in one piece, byte by byte, and cut at each place.
use crate::{
    ConnectAnswer, ConnectError, ConnectFault, ConnectFront, answers_are_one, error_status,
    fault_status, reply, reply_len, status_line,
};
use kn_io::{Blob, Text};
use std::alloc::Global;
use std::test::Fail;

const BAD_HEAD: Result<usize, ConnectError> = Err(ConnectError::Fault(ConnectFault::BadHead));

const NOT_CONNECT: Result<usize, ConnectError> = Err(ConnectError::Fault(ConnectFault::NotConnect));

const TOO_LONG: Result<usize, ConnectError> = Err(ConnectError::Fault(ConnectFault::TooLong));

const MORE: Result<usize, ConnectError> = Ok(0);

/// Bytes, the target of the head that they begin with, and how many bytes that head takes: 0 where more
/// are wanted.
const HEADS: &[(&[u8], &str, Result<usize, ConnectError>)] = &[
    (b"", "", MORE),
    (
        b"CONNECT db:80 HTTP/1.1\r\nHost: db:80\r\n\r\nhi",
        "db:80",
        Ok(39),
    ),
    (b"CONNECT db HTTP/1.1\r\n\r\n", "db", Ok(23)),
    (
        b"CONNECT db:80 HTTP/1.1\nHost: db:80\n\nhi",
        "db:80",
        Ok(36),
    ),
    (b"\r\n\nCONNECT db:80 HTTP/1.0\r\nA:\n\r\n", "db:80", Ok(32)),
    (
        b"CONNECT [2001:db8::1]:443 HTTP/1.1\r\n\r\n",
        "[2001:db8::1]:443",
        Ok(38),
    ),
    (
        b"CONNECT \xc3\xa9:80 HTTP/1.1\r\nA:\t\xe9 b \r\n\r\n",
        "\u{e9}:80",
        Ok(35),
    ),
    // Not whole.
    (b"CONNECT db:80 HTTP/1.1\r\n\r", "", MORE),
    (b"CONNECT db:80 HTTP/1.1\r\nHost", "", MORE),
    (b"CONNECT \xff", "", MORE),
    (b"POST / HTTP/1.1\r\n", "", MORE),
    // Another method.
    (b"GET / HTTP/1.1\r\n\r\n", "", NOT_CONNECT),
    (b"connect db:80 HTTP/1.1\r\n\r\n", "", NOT_CONNECT),
    // A folded line, and a space before the colon.
    (
        b"CONNECT db:80 HTTP/1.1\r\nA: b\r\n c\r\n\r\n",
        "",
        BAD_HEAD,
    ),
    (
        b"CONNECT db:80 HTTP/1.1\r\nHost : db:80\r\n\r\n",
        "",
        BAD_HEAD,
    ),
    // What can never be a head.
    (b"\x16\x03\x01", "", BAD_HEAD),
    (b"\rC", "", BAD_HEAD),
    (b"CON(", "", BAD_HEAD),
    (b"CONNECT  HTTP/1.1\r\n\r\n", "", BAD_HEAD),
    (b"CONNECT db:80\r\n", "", BAD_HEAD),
    (b"CONNECT db:80 HTTP/2.0\r\n\r\n", "", BAD_HEAD),
    (b"CONNECT db:80 HTTP/1.2\r\n\r\n", "", BAD_HEAD),
    (b"CONNECT db:80 HTTP/1.1 \r\n\r\n", "", BAD_HEAD),
    (b"CONNECT db:80 HTTP/1.1\r\n\rA", "", BAD_HEAD),
    (b"CONNECT db:80 HTTP/1.1\r\n: b\r\n\r\n", "", BAD_HEAD),
    (b"CONNECT db:80 HTTP/1.1\r\nA: \x00", "", BAD_HEAD),
    (b"CONNECT db:80 HTTP/1.1\r\nA: b\rc", "", BAD_HEAD),
    (b"CONNECT \xff HTTP/1.1\r\n\r\n", "", BAD_HEAD),
    (b"GET \xff HTTP/1.1\r\n\r\n", "", BAD_HEAD),
];

/// Feeds a first piece of so many bytes, and then pieces of one length. Answers how many bytes the head
/// took, and 0 where more are wanted, and adds its target.
fn taken(
    alloc: Global,
    bytes: &[u8],
    first: usize,
    size: usize,
    target: &mut Text,
) -> Result<usize, ConnectError> {
    let mut front = ConnectFront::new(alloc);
    let mut rest = bytes;
    let mut count = first;
    for _ in 0..=bytes.len() {
        let (piece, after) = rest.split_at(count.min(rest.len()));
        rest = after;
        count = size;
        if let ConnectAnswer::Head {
            target: text,
            early,
        } = front.feed(alloc, piece)?
        {
            target
                .append(text.as_str())
                .map_err(|_| ConnectError::NoMemory)?;
            return Ok(
                bytes
                    .len()
                    .saturating_sub(rest.len())
                    .saturating_sub(early.len()),
            );
        }
    }
    Ok(0)
}

#[test]
fn heads_in_any_pieces(rt: HostRuntime) -> Result<(), Fail> {
    for (bytes, target, want) in HEADS {
        for first in 0..=bytes.len() {
            let mut got = Text::new(rt.alloc());
            assert_eq!(rt;
                taken(rt.alloc(), bytes, first, bytes.len(), &mut got),
                *want,
                "cut at {first}"
            );
            assert_eq!(rt; got.as_str(), *target, "cut at {first}");
        }
        let mut got = Text::new(rt.alloc());
        assert_eq!(rt;
            taken(rt.alloc(), bytes, 1, 1, &mut got),
            *want,
            "byte by byte"
        );
        assert_eq!(rt; got.as_str(), *target, "byte by byte");
    }
    Ok(())
}

/// A request line, so many times a text, an end, and early bytes.
fn long(alloc: Global, part: &[u8], count: usize, end: &[u8], early: usize) -> Result<Blob, Fail> {
    let mut bytes = Blob::of(alloc, b"CONNECT db:80 HTTP/1.1\n")?;
    for _ in 0..count {
        bytes.append(part)?;
    }
    bytes.append(end)?;
    for _ in 0..early {
        bytes.append(b"x")?;
    }
    Ok(bytes)
}

/// Long heads of 8,190 to 8,193 bytes: a part of a line, how often it stands there, the end of the head, and
/// how many bytes the head takes.
const LONG: &[(&[u8], usize, &[u8], Result<usize, ConnectError>)] = &[
    // One long name, one long value.
    (b"a", 8_165, b":\n\n", Ok(8_191)),
    (b"a", 8_166, b":\n\n", Ok(8_192)),
    (b"a", 8_167, b":\n\n", TOO_LONG),
    (b"a:", 4_083, b"\n\n", Ok(8_191)),
    // Lines of three bytes.
    (b"a:\n", 2_722, b"\n", Ok(8_190)),
    (b"a:\n", 2_722, b"\r\n", Ok(8_191)),
    (b"a:\n", 2_723, b"\n", TOO_LONG),
    // The byte after the limit cannot be one of a head, and is not looked at.
    (b"a", 8_169, b"\x00", TOO_LONG),
    (b"a", 8_168, b"\x00", BAD_HEAD),
];

#[test]
fn heads_at_the_limit(rt: HostRuntime) -> Result<(), Fail> {
    for (part, count, end, want) in LONG {
        for early in [0, 20_000] {
            let bytes = long(rt.alloc(), part, *count, end, early)?;
            for size in [1, 1_000, 30_000] {
                let mut got = Text::new(rt.alloc());
                let answer = taken(rt.alloc(), bytes.as_slice(), size, size, &mut got);
                assert_eq!(rt; answer, *want, "{count} times, pieces of {size}");
            }
        }
    }
    Ok(())
}

#[test]
fn early_bytes_and_held_ones(rt: HostRuntime) -> Result<(), Fail> {
    let mut front = ConnectFront::new(rt.alloc());
    let bytes = long(rt.alloc(), b"a", 8_166, b":\n\nhi", 0)?;
    let (start, rest) = bytes.as_slice().split_at(8_191.min(bytes.len()));
    assert!(rt; matches!(front.feed(rt.alloc(), start), Ok(ConnectAnswer::More)));
    assert_eq!(rt; front.held(), 8_191);
    match front.feed(rt.alloc(), rest) {
        Ok(ConnectAnswer::Head { target, early }) => {
            assert_eq!(rt; target.as_str(), "db:80");
            assert_eq!(rt; early.as_slice(), b"hi".as_slice());
        }
        _ => assert!(rt; false, "a head was wanted"),
    }
    assert_eq!(rt; front.held(), 0);
    answers_are_one();
    Ok(())
}

#[test]
fn replies(rt: HostRuntime) {
    assert_eq!(rt; reply(200), "HTTP/1.1 200 Connection Established\r\n\r\n");
    assert_eq!(rt;
        reply(400),
        "HTTP/1.1 400 Bad Request\r\nContent-Length: 0\r\nConnection: close\r\n\r\n"
    );
    assert_eq!(rt;
        reply(405),
        "HTTP/1.1 405 Method Not Allowed\r\nAllow: CONNECT\r\nContent-Length: 0\r\nConnection: close\r\n\r\n"
    );
    assert_eq!(rt;
        reply(431),
        "HTTP/1.1 431 Request Header Fields Too Large\r\nContent-Length: 0\r\nConnection: close\r\n\r\n"
    );
    assert_eq!(rt;
        reply(502),
        "HTTP/1.1 502 Bad Gateway\r\nContent-Length: 0\r\nConnection: close\r\n\r\n"
    );
    assert_eq!(rt;
        reply(503),
        "HTTP/1.1 503 Service Unavailable\r\nContent-Length: 0\r\nConnection: close\r\n\r\n"
    );
}

#[test]
fn statuses_and_lengths(rt: HostRuntime) {
    assert_eq!(rt; fault_status(ConnectFault::BadHead), 400);
    assert_eq!(rt; fault_status(ConnectFault::NotConnect), 405);
    assert_eq!(rt; fault_status(ConnectFault::TooLong), 431);
    assert_eq!(rt; error_status("bad address"), 400);
    assert_eq!(rt; error_status("no agent available"), 503);
    assert_eq!(rt; error_status("dial numbers used up"), 503);
    assert_eq!(rt; error_status("refused"), 502);
    assert_eq!(rt; status_line(502), "502 Bad Gateway");
    assert_eq!(rt; reply_len(200), 39);
    assert_eq!(rt; reply_len(405), 89);
    assert_eq!(rt; reply_len(503), 74);
}
