ghost use Rattle.std.specs.Prelude.{◌<◌};

use super::*;
use kn_hpack::Headers;
use kn_io::{NoMemory, Text};
use kn_packet::{Packet, encoded_len, is_encodable};
use std::alloc::Global;
use std::test::Fail;

/// How many messages bytes are that come in pieces of this size, and how long these are together.
fn read(alloc: Global, bytes: &[u8], size: usize) -> Result<(usize, usize), MessageError>
    requires { 0 < size }
{
    let mut messages = Messages::new(alloc);
    let mut found = (0, 0);
    for piece in bytes.chunks(size) {
        found = read_piece(alloc, &mut messages, piece, found)?;
    }
    Ok(found)
}

/// Feeds a piece until nothing of it is left, and pops each message that becomes whole.
fn read_piece(
    alloc: Global,
    messages: &mut Messages,
    piece: &[u8],
    found: (usize, usize),
) -> Result<(usize, usize), MessageError> {
    let (mut count, mut len) = found;
    let mut rest = piece;
    for _ in 0..piece.len() {
        let taken = messages.feed(rest)?;
        rest = &rest[taken..];
        if let Some(message) = messages.whole() {
            count = usize::saturating_add(count, 1);
            len = usize::saturating_add(len, message.len());
        }
        messages.pop(alloc);
    }
    Ok((count, len))
}

fn fault(offset: u64, reason: MessageReason) -> Result<(usize, usize), MessageError> {
    Err(MessageError::Fault(MessageFault { offset, reason }))
}

#[test]
fn streams_in_pieces_of_any_size(rt: HostRuntime) {
    let two = b"\x00\x00\x00\x00\x02hi\x00\x00\x00\x00\x01x".as_slice();
    let table = [
        ("nothing", b"".as_slice(), Ok((0, 0))),
        ("an empty message", b"\x00\x00\x00\x00\x00", Ok((1, 0))),
        ("two messages", two, Ok((2, 3))),
        ("a partial head", b"\x00\x00\x00", Ok((0, 0))),
        ("a partial message", b"\x00\x00\x00\x00\x02h", Ok((0, 0))),
        (
            "a compressed message",
            b"\x01",
            fault(0, MessageReason::Compressed),
        ),
        ("another flag", b"\x02", fault(0, MessageReason::Flag)),
        (
            "the highest flag",
            b"\xff\x00\x00\x00\x00",
            fault(0, MessageReason::Flag),
        ),
        (
            "4,194,304 bytes to come",
            b"\x00\x00\x40\x00\x00",
            Ok((0, 0)),
        ),
        (
            "4,194,305 bytes",
            b"\x00\x00\x40\x00\x01",
            fault(0, MessageReason::TooLong),
        ),
        (
            "refused at the third byte",
            b"\x00\x00\x41",
            fault(0, MessageReason::TooLong),
        ),
        (
            "refused at the second byte",
            b"\x00\x01",
            fault(0, MessageReason::TooLong),
        ),
        (
            "a fault after a message",
            b"\x00\x00\x00\x00\x02hi\x01",
            fault(7, MessageReason::Compressed),
        ),
    ];
    for (name, bytes, want) in table {
        for size in [1, 3, 16_384] {
            assert_eq!(rt; read(rt.alloc(), bytes, size), want, "{name}");
        }
    }
}

#[test]
fn a_message_of_4_194_304_bytes(rt: HostRuntime) -> Result<(), Fail> {
    let mut bytes = Vec::from_slice(rt.alloc(), b"\x00\x00\x40\x00\x00")?;
    for _ in 0..4_194_304 {
        bytes.push(7)?;
    }
    for size in [1, 16_384, 5_000_000] {
        assert_eq!(rt; read(rt.alloc(), &bytes, size), Ok((1, 4_194_304)));
    }
    Ok(())
}

/// Whether this message is held whole.
fn holds(messages: &Messages, want: &[u8]) -> bool {
    match messages.whole() {
        Some(message) => message == want,
        None => false,
    }
}

#[test]
fn one_message_is_held(rt: HostRuntime) {
    let alloc = rt.alloc();
    let two = b"\x00\x00\x00\x00\x02hi\x00\x00\x00\x00\x01x".as_slice();
    let mut messages = Messages::new(alloc);
    assert_eq!(rt; messages.feed(two), Ok(7));
    assert!(rt; holds(&messages, b"hi"));
    assert_eq!(rt; messages.feed(two), Ok(0), "a whole one is held");
    messages.pop(alloc);
    assert!(rt; messages.whole().is_none());
    assert_eq!(rt; messages.feed(b""), Ok(0));
    assert_eq!(rt; messages.feed(b"\x00\x00\x00\x00\x01xy"), Ok(6));
    assert!(rt; holds(&messages, b"x"));
}

/// What stands at the front, as a text.
fn front_of<'a>(messages: &'a Messages) -> &'a [u8] {
    match messages.first() {
        Front::Less => b"less",
        Front::Whole { message } => message,
        Front::Bad { .. } => b"bad",
    }
}

#[test]
fn what_stands_at_the_front(rt: HostRuntime) {
    let mut messages = Messages::new(rt.alloc());
    assert!(rt; messages.is_empty());
    assert_eq!(rt; front_of(&messages), b"less".as_slice());
    assert_eq!(rt; messages.feed(b"\x00\x00\x00\x00\x02h"), Ok(6));
    assert!(rt; !messages.is_empty());
    assert_eq!(rt; front_of(&messages), b"less".as_slice());
    assert_eq!(rt; messages.feed(b"i\x02"), Ok(1));
    assert_eq!(rt; front_of(&messages), b"hi".as_slice());
    messages.pop(rt.alloc());
    assert!(rt; messages.feed(b"\x02").is_err());
    assert_eq!(rt; front_of(&messages), b"bad".as_slice());
}

/// The service in the path of a head of this method and path.
fn service_named(alloc: Global, method: &str, path: &str) -> Result<Option<Service>, NoMemory> {
    let mut headers = Headers::new(alloc);
    headers.add(alloc, b":method", method.as_bytes())?;
    headers.add(alloc, b":path", path.as_bytes())?;
    Ok(service_in_path(&headers))
}

#[test]
fn services_in_paths(rt: HostRuntime) -> Result<(), Fail> {
    let alloc = rt.alloc();
    assert!(rt; service_named(alloc, "POST", "/AgentService/Connect")? == Some(Service::Agent));
    assert!(rt; service_named(alloc, "POST", "/x.ProxyService/Proxy")? == Some(Service::Proxy));
    assert!(rt; service_named(alloc, "POST", "/ProxyService")?.is_none());
    assert!(rt; service_named(alloc, "GET", "/ProxyService/Proxy")?.is_none());
    Ok(())
}

#[test]
fn a_fault_is_answered_again(rt: HostRuntime) {
    let mut messages = Messages::new(rt.alloc());
    for piece in [b"\x02\x00".as_slice(), b"", b"\x00\x00\x00\x00\x00"] {
        let want = MessageFault {
            offset: 0,
            reason: MessageReason::Flag,
        };
        assert_eq!(rt; messages.feed(piece), Err(MessageError::Fault(want)));
        messages.pop(rt.alloc());
        assert!(rt; messages.whole().is_none());
    }
}

#[test]
fn statuses_of_bad_messages(rt: HostRuntime) {
    assert_eq!(rt; MessageReason::Compressed.status(), 12, "UNIMPLEMENTED");
    assert_eq!(rt; MessageReason::Flag.status(), 13, "INTERNAL");
    assert_eq!(rt; MessageReason::TooLong.status(), 8, "RESOURCE_EXHAUSTED");
}

/// Whether a packet is framed as these bytes.
fn is_framed(alloc: Global, packet: &Packet, want: &[u8]) -> Result<bool, NoMemory> {
    if !is_encodable(packet) {
        return Ok(false);
    }
    if encoded_len(packet) > 4_194_304 {
        return Ok(false);
    }
    let blob = frame(alloc, packet)?;
    Ok(blob.as_slice() == want)
}

#[test]
fn packets_are_framed(rt: HostRuntime) -> Result<(), Fail> {
    let alloc = rt.alloc();
    assert!(rt;
        is_framed(
            alloc,
            &Packet::Drain,
            b"\x00\x00\x00\x00\x04\x08\x06\x42\x00"
        )?
    );
    let reply = Packet::DialRsp {
        error: Text::of(alloc, "no agent available")?,
        connect_id: 0,
        random: 5,
    };
    let want = b"\x00\x00\x00\x00\x1a\x08\x01\x1a\x16\x0a\x12no agent available\x18\x05";
    assert!(rt; is_framed(alloc, &reply, want)?);
    Ok(())
}

/// Whether a head has exactly these fields.
fn has(headers: &Headers, fields: &[(&str, &str)]) -> bool {
    if headers.len() != fields.len() {
        return false;
    }
    let mut same = true;
    for index in 0..headers.len() {
        let (name, value) = match fields.get(index) {
            Some(field) => *field,
            None => ("", ""),
        };
        same = same
            && headers.name(index) == name.as_bytes()
            && headers.value(index) == value.as_bytes();
    }
    same
}

#[test]
fn heads_are_their_fields(rt: HostRuntime) -> Result<(), Fail> {
    let alloc = rt.alloc();
    let agent = [
        (":method", "POST"),
        (":scheme", "http"),
        (":path", "/AgentService/Connect"),
        (":authority", "proxy:8091"),
        ("te", "trailers"),
        ("content-type", "application/grpc"),
        ("agentid", "a-1"),
        ("agentidentifiers", "host=db"),
    ];
    assert!(rt;
        has(
            &call_head(alloc, Service::Agent, "proxy:8091", "a-1", "host=db")?,
            &agent
        )
    );
    let proxy = [
        (":method", "POST"),
        (":scheme", "http"),
        (":path", "/ProxyService/Proxy"),
        (":authority", "proxy:8090"),
        ("te", "trailers"),
        ("content-type", "application/grpc"),
    ];
    assert!(rt;
        has(
            &call_head(alloc, Service::Proxy, "proxy:8090", "a-1", "host=db")?,
            &proxy
        )
    );
    let answer = [
        (":status", "200"),
        ("content-type", "application/grpc"),
        ("serverid", "s-1"),
        ("servercount", "3"),
    ];
    assert!(rt; has(&answer_head(alloc, Service::Agent, "s-1", 3)?, &answer));
    assert!(rt; has(&answer_head(alloc, Service::Proxy, "s-1", 3)?, &answer[..2]));
    assert!(rt; has(&trailers(alloc, 0)?, &[("grpc-status", "0")]));
    assert!(rt; has(&trailers(alloc, 14)?, &[("grpc-status", "14")]));
    Ok(())
}

#[test]
fn refusals_are_their_fields(rt: HostRuntime) -> Result<(), Fail> {
    let alloc = rt.alloc();
    assert!(rt;
        has(
            &refusal_head(alloc, CallFault::NotPost)?,
            &[(":status", "405")]
        )
    );
    assert!(rt;
        has(
            &refusal_head(alloc, CallFault::ContentType)?,
            &[(":status", "415")]
        )
    );
    for (fault, status) in [(CallFault::Path, "12"), (CallFault::Identifiers, "13")] {
        let fields = [
            (":status", "200"),
            ("content-type", "application/grpc"),
            ("grpc-status", status),
        ];
        assert!(rt; has(&refusal_head(alloc, fault)?, &fields));
    }
    Ok(())
}

/// A head of these fields.
fn head_of(alloc: Global, fields: &[(&str, &str)]) -> Result<Headers, NoMemory> {
    let mut headers = Headers::new(alloc);
    for (name, value) in fields {
        headers.add(alloc, name.as_bytes(), value.as_bytes())?;
    }
    Ok(headers)
}

/// The service, the length of the id and the number of pairs that a head of these fields asks for.
fn call_of(alloc: Global, fields: &[(&str, &str)]) -> Result<(Service, usize, usize), CallError> {
    let headers = head_of(alloc, fields)?;
    let call = read_call(alloc, &headers)?;
    Ok((call.service, call.agent_id.len(), call.identifiers.len()))
}

const GO_PROXY: [(&str, &str); 11] = [
    (":method", "POST"),
    (":scheme", "http"),
    (":path", "/ProxyService/Proxy"),
    (":authority", "konnectivity:8090"),
    ("content-type", "application/grpc"),
    ("user-agent", "grpc-go/1.64.0"),
    ("te", "trailers"),
    ("grpc-encoding", "gzip"),
    ("grpc-accept-encoding", "gzip"),
    ("grpc-timeout", "999m"),
    ("x-request-id", "7"),
];

const GO_AGENT: [(&str, &str); 9] = [
    (":method", "POST"),
    (":scheme", "https"),
    (":path", "/AgentService/Connect"),
    (":authority", "konnectivity:8091"),
    ("content-type", "application/grpc"),
    ("user-agent", "grpc-go/1.64.0"),
    ("te", "trailers"),
    ("agentid", "agent-1"),
    ("agentidentifiers", "host=db&ipv4=10.0.0.1"),
];

const CORE_PROXY: [(&str, &str); 9] = [
    (":scheme", "http"),
    (":method", "POST"),
    (":authority", "konnectivity:8090"),
    (":path", "/package.ProxyService/Proxy"),
    ("te", "trailers"),
    ("content-type", "application/grpc"),
    (
        "user-agent",
        "grpc-python/1.62.0 grpc-c/39.0.0 (linux; chttp2)",
    ),
    ("grpc-accept-encoding", "identity, deflate, gzip"),
    ("accept-encoding", "identity, gzip"),
];

const NGHTTP2_PROXY: [(&str, &str); 9] = [
    (":method", "POST"),
    (":path", "/ProxyService/Proxy"),
    (":scheme", "http"),
    (":authority", "konnectivity:8090"),
    ("accept", "*/*"),
    ("accept-encoding", "gzip, deflate"),
    ("user-agent", "nghttp2/1.59.0"),
    ("content-type", "application/grpc+proto"),
    ("te", "trailers"),
];

#[test]
fn heads_of_other_libraries(rt: HostRuntime) {
    let alloc = rt.alloc();
    assert_eq!(rt;
        call_of(alloc, &GO_PROXY),
        Ok((Service::Proxy, 0, 0)),
        "grpc-go"
    );
    assert_eq!(rt;
        call_of(alloc, &GO_AGENT),
        Ok((Service::Agent, 7, 2)),
        "grpc-go"
    );
    assert_eq!(rt;
        call_of(alloc, &CORE_PROXY),
        Ok((Service::Proxy, 0, 0)),
        "grpcio"
    );
    assert_eq!(rt;
        call_of(alloc, &NGHTTP2_PROXY),
        Ok((Service::Proxy, 0, 0)),
        "nghttp2"
    );
}

/// What a head of this method, path and content type asks for.
fn asked(
    alloc: Global,
    method: &str,
    path: &str,
    content_type: &str,
) -> Result<(Service, usize, usize), CallError> {
    call_of(
        alloc,
        &[
            (":method", method),
            (":path", path),
            ("content-type", content_type),
        ],
    )
}

#[test]
fn methods_paths_and_content_types(rt: HostRuntime) {
    let agent = Ok((Service::Agent, 0, 0));
    let proxy = Ok((Service::Proxy, 0, 0));
    let not_post = Err(CallError::Fault(CallFault::NotPost));
    let path = Err(CallError::Fault(CallFault::Path));
    let content_type = Err(CallError::Fault(CallFault::ContentType));
    let grpc = "application/grpc";
    let table = [
        ("POST", "/AgentService/Connect", grpc, agent),
        ("POST", "/ProxyService/Proxy", grpc, proxy),
        ("POST", "/package.ProxyService/Proxy", grpc, proxy),
        ("POST", "/a.b.AgentService/Connect", grpc, agent),
        ("POST", "/x/ProxyService/Proxy", grpc, proxy),
        ("POST", "/x/y.AgentService/Connect", grpc, agent),
        ("POST", "ProxyService/Proxy", grpc, path),
        ("POST", "x/ProxyService/Proxy", grpc, path),
        ("POST", "/.ProxyService/Proxy", grpc, path),
        ("POST", "/MyProxyService/Proxy", grpc, path),
        ("POST", "/ProxyService/Connect", grpc, path),
        ("POST", "/ProxyService/Proxy/", grpc, path),
        ("POST", "/proxyservice/proxy", grpc, path),
        ("POST", "", grpc, path),
        ("GET", "/ProxyService/Proxy", grpc, not_post),
        ("GET", "/nowhere", "text/html", not_post),
        ("post", "/ProxyService/Proxy", grpc, not_post),
        ("POST", "/nowhere", "text/html", path),
        (
            "POST",
            "/ProxyService/Proxy",
            "application/grpc+proto",
            proxy,
        ),
        (
            "POST",
            "/ProxyService/Proxy",
            "application/grpc;charset=utf-8",
            proxy,
        ),
        (
            "POST",
            "/ProxyService/Proxy",
            "application/json",
            content_type,
        ),
        ("POST", "/ProxyService/Proxy", "", content_type),
    ];
    for (method, at, kind, want) in table {
        assert_eq!(rt;
            asked(rt.alloc(), method, at, kind),
            want,
            "{method} {at} {kind}"
        );
    }
}

/// What a head of an agent with this id and these identifiers asks for, each of them any bytes.
fn agent(
    alloc: Global,
    id: &[u8],
    identifiers: &[u8],
) -> Result<(Service, usize, usize), CallError> {
    let mut headers = head_of(alloc, &GO_AGENT[..7])?;
    headers.add(alloc, b"agentid", id)?;
    headers.add(alloc, b"agentid", b"another")?;
    headers.add(alloc, b"agentidentifiers", identifiers)?;
    let call = read_call(alloc, &headers)?;
    Ok((call.service, call.agent_id.len(), call.identifiers.len()))
}

#[test]
fn ids_and_identifiers(rt: HostRuntime) -> Result<(), Fail> {
    let alloc = rt.alloc();
    let long = vec![in alloc; b'a'; 1_025]?;
    let bad = Err(CallError::Fault(CallFault::Identifiers));
    let table = [
        (
            "none",
            b"".as_slice(),
            b"".as_slice(),
            Ok((Service::Agent, 0, 0)),
        ),
        ("one", b"a", b"uid=1", Ok((Service::Agent, 1, 1))),
        (
            "1,024 bytes",
            &long[..1_024],
            b"",
            Ok((Service::Agent, 1_024, 0)),
        ),
        ("1,025 bytes", &long[..], b"", bad),
        ("an id that is no UTF-8", b"\xff", b"", bad),
        ("identifiers that are no UTF-8", b"a", b"host=\xff", bad),
        ("an unknown kind", b"a", b"color=red", bad),
    ];
    for (name, id, identifiers, want) in table {
        assert_eq!(rt; agent(alloc, id, identifiers), want, "{name}");
    }
    Ok(())
}

#[test]
fn a_missing_field_is_told(rt: HostRuntime) {
    let alloc = rt.alloc();
    let path = (":path", "/ProxyService/Proxy");
    let missing = |fault| Err(CallError::Fault(fault));
    assert_eq!(rt; call_of(alloc, &[]), missing(CallFault::NotPost));
    assert_eq!(rt;
        call_of(alloc, &[(":method", "POST")]),
        missing(CallFault::Path)
    );
    assert_eq!(rt;
        call_of(alloc, &[(":method", "POST"), path]),
        missing(CallFault::ContentType)
    );
}
