use super::*;
use kn_io::{Blob, NoMemory, Text};
use kn_packet::Packet;
use kn_route::{Identifiers, Strategies};
use std::alloc::Global;
use std::process::Abort;
use std::test::Fail;

/// A packet as a constant.
#[derive(Clone, Copy)]
enum Sent {
    DialReq(&'static str, &'static str, i64),
    DialRsp(&'static str, i64, i64),
    CloseReq(i64),
    CloseRsp(&'static str, i64),
    Data(i64, &'static [u8]),
    DialCls(i64),
    Drain,
}

/// An event as a constant.
#[derive(Clone, Copy)]
enum Event {
    LinkUp(u64),
    LinkSent(u64, Sent),
    LinkLost(u64),
    FrontUp(u64),
    FrontSent(u64, Sent),
    FrontLost(u64),
}

/// An output as a constant.
#[derive(Clone, Copy)]
enum Told {
    ToLink(u64, Sent),
    ToFront(u64, Sent),
    Cut(u64),
    Made(u64, u64, u64),
}

/// An event, what it gives, and how many dials are awaited and held after it.
type Turn = (Event, &'static [Told], usize, usize);

const SCENARIOS: [(&str, &[Turn]); 11] = [
    (
        "a second reply with a held connectID cuts its link",
        &[
            (Event::LinkUp(1), &[], 0, 0),
            (Event::FrontUp(1), &[], 0, 0),
            (
                Event::FrontSent(1, Sent::DialReq("tcp", "a:1", 7)),
                &[
                    Told::Made(1, 1, 1),
                    Told::ToLink(1, Sent::DialReq("tcp", "a:1", 1)),
                ],
                1,
                0,
            ),
            (
                Event::LinkSent(1, Sent::DialRsp("", 1, 1)),
                &[Told::ToFront(1, Sent::DialRsp("", 1, 7))],
                0,
                1,
            ),
            (Event::FrontUp(2), &[], 0, 1),
            (
                Event::FrontSent(2, Sent::DialReq("tcp", "a:1", 7)),
                &[
                    Told::Made(2, 1, 2),
                    Told::ToLink(1, Sent::DialReq("tcp", "a:1", 2)),
                ],
                1,
                1,
            ),
            (
                Event::LinkSent(1, Sent::DialRsp("", 1, 2)),
                &[
                    Told::Cut(1),
                    Told::ToFront(2, Sent::DialRsp("agent lost", 0, 7)),
                    Told::ToFront(1, Sent::CloseRsp("agent lost", 1)),
                ],
                0,
                0,
            ),
        ],
    ),
    (
        "a dial that its front awaits already",
        &[
            (Event::LinkUp(1), &[], 0, 0),
            (Event::FrontUp(1), &[], 0, 0),
            (
                Event::FrontSent(1, Sent::DialReq("tcp", "a:1", 5)),
                &[
                    Told::Made(1, 1, 1),
                    Told::ToLink(1, Sent::DialReq("tcp", "a:1", 1)),
                ],
                1,
                0,
            ),
            (
                Event::FrontSent(1, Sent::DialReq("tcp", "a:1", 5)),
                &[Told::ToFront(1, Sent::DialRsp("dial already awaited", 0, 5))],
                1,
                0,
            ),
        ],
    ),
    (
        "dials that are refused",
        &[
            (Event::FrontUp(1), &[], 0, 0),
            (
                Event::FrontSent(1, Sent::DialReq("tcp", "a:1", 7)),
                &[Told::ToFront(1, Sent::DialRsp("no agent available", 0, 7))],
                0,
                0,
            ),
            (Event::LinkUp(1), &[], 0, 0),
            (
                Event::FrontSent(1, Sent::DialReq("tcp6", "a:1", 8)),
                &[Told::ToFront(1, Sent::DialRsp("unsupported protocol", 0, 8))],
                0,
                0,
            ),
            (
                Event::FrontSent(1, Sent::DialReq("tcp", "a", 9)),
                &[Told::ToFront(1, Sent::DialRsp("bad address", 0, 9))],
                0,
                0,
            ),
        ],
    ),
    (
        "two agents that both draw connectID 1",
        &[
            (Event::LinkUp(1), &[], 0, 0),
            (Event::LinkUp(2), &[], 0, 0),
            (Event::FrontUp(1), &[], 0, 0),
            (
                Event::FrontSent(1, Sent::DialReq("tcp", "a:1", 7)),
                &[
                    Told::Made(1, 2, 1),
                    Told::ToLink(2, Sent::DialReq("tcp", "a:1", 1)),
                ],
                1,
                0,
            ),
            (
                Event::FrontSent(1, Sent::DialReq("tcp", "a:1", 8)),
                &[
                    Told::Made(2, 1, 1),
                    Told::ToLink(1, Sent::DialReq("tcp", "a:1", 2)),
                ],
                2,
                0,
            ),
            (
                Event::LinkSent(2, Sent::DialRsp("", 1, 1)),
                &[Told::ToFront(1, Sent::DialRsp("", 1, 7))],
                1,
                1,
            ),
            (
                Event::LinkSent(1, Sent::DialRsp("", 1, 2)),
                &[Told::ToFront(1, Sent::DialRsp("", 2, 8))],
                0,
                2,
            ),
            (
                Event::LinkSent(2, Sent::Data(1, b"a")),
                &[Told::ToFront(1, Sent::Data(1, b"a"))],
                0,
                2,
            ),
            (
                Event::LinkSent(1, Sent::Data(1, b"b")),
                &[Told::ToFront(1, Sent::Data(2, b"b"))],
                0,
                2,
            ),
            (
                Event::FrontSent(1, Sent::Data(2, b"c")),
                &[Told::ToLink(1, Sent::Data(1, b"c"))],
                0,
                2,
            ),
            (
                Event::FrontSent(1, Sent::Data(1, b"d")),
                &[Told::ToLink(2, Sent::Data(1, b"d"))],
                0,
                2,
            ),
            (
                Event::LinkSent(2, Sent::CloseRsp("gone", 1)),
                &[Told::ToFront(1, Sent::CloseRsp("gone", 1))],
                0,
                1,
            ),
            (Event::LinkSent(2, Sent::Data(1, b"e")), &[], 0, 1),
            (
                Event::LinkSent(1, Sent::Data(1, b"f")),
                &[Told::ToFront(1, Sent::Data(2, b"f"))],
                0,
                1,
            ),
        ],
    ),
    (
        "replies that nobody awaits",
        &[
            (Event::LinkUp(1), &[], 0, 0),
            (Event::FrontUp(1), &[], 0, 0),
            (
                Event::LinkSent(1, Sent::DialRsp("", 4, 9)),
                &[Told::ToLink(1, Sent::CloseReq(4))],
                0,
                0,
            ),
            (Event::LinkSent(1, Sent::DialRsp("no", 0, 9)), &[], 0, 0),
            (Event::LinkUp(2), &[], 0, 0),
            (
                Event::FrontSent(1, Sent::DialReq("tcp", "a:1", 7)),
                &[
                    Told::Made(1, 2, 1),
                    Told::ToLink(2, Sent::DialReq("tcp", "a:1", 1)),
                ],
                1,
                0,
            ),
            (
                Event::LinkSent(1, Sent::DialRsp("", 5, 1)),
                &[Told::ToLink(1, Sent::CloseReq(5))],
                1,
                0,
            ),
            (Event::LinkSent(1, Sent::DialRsp("no", 0, 1)), &[], 1, 0),
            (
                Event::LinkSent(2, Sent::DialRsp("", 5, 1)),
                &[Told::ToFront(1, Sent::DialRsp("", 1, 7))],
                0,
                1,
            ),
        ],
    ),
    (
        "a cancel before the reply",
        &[
            (Event::LinkUp(1), &[], 0, 0),
            (Event::FrontUp(1), &[], 0, 0),
            (
                Event::FrontSent(1, Sent::DialReq("tcp", "a:1", 7)),
                &[
                    Told::Made(1, 1, 1),
                    Told::ToLink(1, Sent::DialReq("tcp", "a:1", 1)),
                ],
                1,
                0,
            ),
            (Event::FrontSent(1, Sent::DialCls(8)), &[], 1, 0),
            (Event::FrontSent(1, Sent::DialCls(7)), &[], 0, 0),
            (
                Event::LinkSent(1, Sent::DialRsp("", 3, 1)),
                &[Told::ToLink(1, Sent::CloseReq(3))],
                0,
                0,
            ),
            (Event::FrontSent(1, Sent::DialCls(7)), &[], 0, 0),
        ],
    ),
    (
        "a front that asked to close is lost",
        &[
            (Event::LinkUp(1), &[], 0, 0),
            (Event::FrontUp(1), &[], 0, 0),
            (
                Event::FrontSent(1, Sent::DialReq("tcp", "a:1", 7)),
                &[
                    Told::Made(1, 1, 1),
                    Told::ToLink(1, Sent::DialReq("tcp", "a:1", 1)),
                ],
                1,
                0,
            ),
            (
                Event::LinkSent(1, Sent::DialRsp("", 1, 1)),
                &[Told::ToFront(1, Sent::DialRsp("", 1, 7))],
                0,
                1,
            ),
            (
                Event::FrontSent(1, Sent::DialReq("tcp", "a:1", 8)),
                &[
                    Told::Made(2, 1, 1),
                    Told::ToLink(1, Sent::DialReq("tcp", "a:1", 2)),
                ],
                1,
                1,
            ),
            (
                Event::LinkSent(1, Sent::DialRsp("", 2, 2)),
                &[Told::ToFront(1, Sent::DialRsp("", 2, 8))],
                0,
                2,
            ),
            (
                Event::FrontSent(1, Sent::DialReq("tcp", "a:1", 9)),
                &[
                    Told::Made(3, 1, 1),
                    Told::ToLink(1, Sent::DialReq("tcp", "a:1", 3)),
                ],
                1,
                2,
            ),
            (
                Event::FrontSent(1, Sent::CloseReq(1)),
                &[Told::ToLink(1, Sent::CloseReq(1))],
                1,
                2,
            ),
            (Event::FrontSent(1, Sent::CloseReq(1)), &[], 1, 2),
            (Event::FrontSent(1, Sent::Data(1, b"x")), &[], 1, 2),
            (Event::LinkSent(1, Sent::Data(1, b"y")), &[], 1, 2),
            (
                Event::FrontSent(1, Sent::CloseReq(5)),
                &[Told::ToFront(1, Sent::CloseRsp("unknown connection", 5))],
                1,
                2,
            ),
            (
                Event::FrontSent(1, Sent::CloseReq(-1)),
                &[Told::ToFront(1, Sent::CloseRsp("unknown connection", -1))],
                1,
                2,
            ),
            (
                Event::FrontLost(1),
                &[Told::ToLink(1, Sent::CloseReq(2))],
                0,
                2,
            ),
            (Event::LinkSent(1, Sent::CloseRsp("", 1)), &[], 0, 1),
            (Event::FrontLost(1), &[], 0, 1),
            (Event::LinkSent(1, Sent::CloseRsp("", 2)), &[], 0, 0),
        ],
    ),
    (
        "a link is lost",
        &[
            (Event::LinkUp(1), &[], 0, 0),
            (Event::FrontUp(1), &[], 0, 0),
            (
                Event::FrontSent(1, Sent::DialReq("tcp", "a:1", 7)),
                &[
                    Told::Made(1, 1, 1),
                    Told::ToLink(1, Sent::DialReq("tcp", "a:1", 1)),
                ],
                1,
                0,
            ),
            (
                Event::LinkSent(1, Sent::DialRsp("", 9, 1)),
                &[Told::ToFront(1, Sent::DialRsp("", 1, 7))],
                0,
                1,
            ),
            (
                Event::FrontSent(1, Sent::DialReq("tcp", "a:1", 8)),
                &[
                    Told::Made(2, 1, 1),
                    Told::ToLink(1, Sent::DialReq("tcp", "a:1", 2)),
                ],
                1,
                1,
            ),
            (
                Event::LinkSent(1, Sent::DialRsp("", 3, 2)),
                &[Told::ToFront(1, Sent::DialRsp("", 2, 8))],
                0,
                2,
            ),
            (
                Event::FrontSent(1, Sent::DialReq("tcp", "a:1", 9)),
                &[
                    Told::Made(3, 1, 1),
                    Told::ToLink(1, Sent::DialReq("tcp", "a:1", 3)),
                ],
                1,
                2,
            ),
            (
                Event::LinkLost(1),
                &[
                    Told::ToFront(1, Sent::DialRsp("agent lost", 0, 9)),
                    Told::ToFront(1, Sent::CloseRsp("agent lost", 2)),
                    Told::ToFront(1, Sent::CloseRsp("agent lost", 1)),
                ],
                0,
                0,
            ),
            (Event::LinkLost(1), &[], 0, 0),
            (
                Event::FrontSent(1, Sent::DialReq("tcp", "a:1", 9)),
                &[Told::ToFront(1, Sent::DialRsp("no agent available", 0, 9))],
                0,
                0,
            ),
        ],
    ),
    (
        "a dial that fails, its error cut before the character that does not fit",
        &[
            (Event::LinkUp(1), &[], 0, 0),
            (Event::FrontUp(1), &[], 0, 0),
            (
                Event::FrontSent(1, Sent::DialReq("tcp", "a:1", 7)),
                &[
                    Told::Made(1, 1, 1),
                    Told::ToLink(1, Sent::DialReq("tcp", "a:1", 1)),
                ],
                1,
                0,
            ),
            (
                Event::LinkSent(
                    1,
                    Sent::DialRsp(
                        "xxxxxxxxxxxxxxxxxxxxxxxxxxxxxxxxxxxxxxxxxxxxxxxxxxxxxxxxxxxxxxxxxxxxxxxxxxxxxxxxxxxxxxxxxxxxxxxxxxxxxxxxxxxxxxxxxxxxxxxxxxxxxxxxxxxxxxxxxxxxxxxxxxxxxxxxxxxxxxxxxxxxxxxxxxxxxxxxxxxxxxxxxxxxxxxxxxxxxxxxxxxxxxxxxxxxxxxxxxxxxxxxxxxxxxxxxxxxxxxxxxxxxxxxxxxxxxxé",
                        0,
                        1,
                    ),
                ),
                &[Told::ToFront(
                    1,
                    Sent::DialRsp(
                        "xxxxxxxxxxxxxxxxxxxxxxxxxxxxxxxxxxxxxxxxxxxxxxxxxxxxxxxxxxxxxxxxxxxxxxxxxxxxxxxxxxxxxxxxxxxxxxxxxxxxxxxxxxxxxxxxxxxxxxxxxxxxxxxxxxxxxxxxxxxxxxxxxxxxxxxxxxxxxxxxxxxxxxxxxxxxxxxxxxxxxxxxxxxxxxxxxxxxxxxxxxxxxxxxxxxxxxxxxxxxxxxxxxxxxxxxxxxxxxxxxxxxxxxxxxxxxxx",
                        0,
                        7,
                    ),
                )],
                0,
                0,
            ),
        ],
    ),
    (
        "a link that drains",
        &[
            (Event::LinkUp(1), &[], 0, 0),
            (Event::LinkUp(2), &[], 0, 0),
            (Event::FrontUp(1), &[], 0, 0),
            (Event::LinkSent(1, Sent::Drain), &[], 0, 0),
            (
                Event::FrontSent(1, Sent::DialReq("tcp", "a:1", 7)),
                &[
                    Told::Made(1, 2, 1),
                    Told::ToLink(2, Sent::DialReq("tcp", "a:1", 1)),
                ],
                1,
                0,
            ),
            (
                Event::FrontSent(1, Sent::DialReq("tcp", "a:1", 8)),
                &[
                    Told::Made(2, 2, 1),
                    Told::ToLink(2, Sent::DialReq("tcp", "a:1", 2)),
                ],
                2,
                0,
            ),
        ],
    ),
    (
        "events that change nothing",
        &[
            (Event::LinkUp(1), &[], 0, 0),
            (Event::FrontUp(1), &[], 0, 0),
            (
                Event::LinkSent(1, Sent::DialReq("tcp", "a:1", 7)),
                &[],
                0,
                0,
            ),
            (Event::LinkSent(1, Sent::CloseReq(1)), &[], 0, 0),
            (Event::LinkSent(1, Sent::DialCls(1)), &[], 0, 0),
            (Event::LinkSent(1, Sent::CloseRsp("", 1)), &[], 0, 0),
            (Event::FrontSent(1, Sent::DialRsp("", 1, 1)), &[], 0, 0),
            (Event::FrontSent(1, Sent::CloseRsp("", 1)), &[], 0, 0),
            (Event::FrontSent(1, Sent::Drain), &[], 0, 0),
            (Event::FrontSent(1, Sent::Data(1, b"a")), &[], 0, 0),
            (Event::LinkSent(2, Sent::DialRsp("", 1, 1)), &[], 0, 0),
            (Event::LinkLost(2), &[], 0, 0),
            (Event::FrontSent(2, Sent::CloseReq(1)), &[], 0, 0),
            (Event::FrontLost(2), &[], 0, 0),
        ],
    ),
];

fn packet_of(alloc: Global, sent: &Sent) -> Result<Packet, NoMemory> {
    match sent {
        Sent::DialReq(protocol, address, random) => Ok(Packet::DialReq {
            protocol: Text::of(alloc, protocol)?,
            address: Text::of(alloc, address)?,
            random: *random,
        }),
        Sent::DialRsp(error, connect_id, random) => Ok(Packet::DialRsp {
            error: Text::of(alloc, error)?,
            connect_id: *connect_id,
            random: *random,
        }),
        Sent::CloseReq(connect_id) => Ok(Packet::CloseReq {
            connect_id: *connect_id,
        }),
        Sent::CloseRsp(error, connect_id) => Ok(Packet::CloseRsp {
            error: Text::of(alloc, error)?,
            connect_id: *connect_id,
        }),
        Sent::Data(connect_id, bytes) => Ok(Packet::Data {
            connect_id: *connect_id,
            error: Text::new(alloc),
            bytes: Blob::of(alloc, bytes)?,
        }),
        Sent::DialCls(random) => Ok(Packet::DialCls { random: *random }),
        Sent::Drain => Ok(Packet::Drain),
    }
}

fn is_packet(packet: &Packet, sent: &Sent) -> bool {
    match (packet, sent) {
        (
            Packet::DialReq {
                protocol,
                address,
                random,
            },
            Sent::DialReq(p, a, r),
        ) => { protocol.as_str() == *p && address.as_str() == *a && *random == *r }
        (
            Packet::DialRsp {
                error,
                connect_id,
                random,
            },
            Sent::DialRsp(e, c, r),
        ) => { error.as_str() == *e && *connect_id == *c && *random == *r }
        (Packet::CloseReq { connect_id }, Sent::CloseReq(c)) => *connect_id == *c,
        (Packet::CloseRsp { error, connect_id }, Sent::CloseRsp(e, c)) => {
            error.as_str() == *e && *connect_id == *c
        }
        (
            Packet::Data {
                connect_id,
                error,
                bytes,
            },
            Sent::Data(c, b),
        ) => { *connect_id == *c && error.is_empty() && bytes.as_slice() == *b }
        _ => false,
    }
}

fn is_told(out: &ServerOut, told: &Told) -> bool {
    match (out, told) {
        (ServerOut::ToLink { link, packet }, Told::ToLink(l, sent)) => {
            *link == *l && is_packet(packet, sent)
        }
        (ServerOut::ToFront { front, packet }, Told::ToFront(f, sent)) => {
            *front == *f && is_packet(packet, sent)
        }
        (ServerOut::CutLink { link }, Told::Cut(l)) => *link == *l,
        (ServerOut::Made { dial, link, front }, Told::Made(d, l, f)) => {
            *dial == *d && *link == *l && *front == *f
        }
        _ => false,
    }
}

fn is_data(out: &ServerOut, wanted: &[u8]) -> bool {
    match out {
        ServerOut::ToFront {
            front: 1,
            packet: Packet::Data {
                connect_id: 1,
                error,
                bytes,
            },
        } => { error.is_empty() && bytes.as_slice() == wanted }
        _ => false,
    }
}

fn are_parts(outs: &[ServerOut], bytes: &[u8]) -> bool {
    match outs {
        [first, rest] => match bytes.split_at_checked(4_194_000) {
            Some((front, back)) => is_data(first, front) && is_data(rest, back),
            None => false,
        },
        _ => false,
    }
}

fn open_one(
    alloc: Global,
    core: &mut ServerCore,
    outs: &mut Vec<ServerOut>,
) -> Result<(), NoMemory> {
    take(alloc, core, &Event::LinkUp(1), outs)?;
    take(alloc, core, &Event::FrontUp(1), outs)?;
    take(
        alloc,
        core,
        &Event::FrontSent(1, Sent::DialReq("tcp", "a:1", 7)),
        outs,
    )?;
    take(
        alloc,
        core,
        &Event::LinkSent(1, Sent::DialRsp("", 3, 1)),
        outs,
    )
}

fn are_told(outs: &[ServerOut], told: &[Told]) -> bool {
    outs.len() == told.len() && outs.iter().zip(told).all(|(out, told)| is_told(out, told))
}

/// Links and fronts come up only with numbers above all earlier ones.
fn take(
    alloc: Global,
    core: &mut ServerCore,
    event: &Event,
    outs: &mut Vec<ServerOut>,
) -> Result<(), NoMemory> {
    match event {
        Event::LinkUp(link) => {
            if *link > core.links().top() {
                let identifiers = Identifiers::new(alloc);
                core.step(
                    alloc,
                    ServerEvent::LinkUp {
                        link: *link,
                        identifiers,
                    },
                    outs,
                )
            } else {
                Ok(())
            }
        }
        Event::LinkSent(link, sent) => {
            let packet = packet_of(alloc, sent)?;
            core.step(
                alloc,
                ServerEvent::LinkPacket {
                    link: *link,
                    packet,
                },
                outs,
            )
        }
        Event::LinkLost(link) => core.step(alloc, ServerEvent::LinkLost { link: *link }, outs),
        Event::FrontUp(front) => {
            if *front > core.top_front() {
                core.step(alloc, ServerEvent::FrontUp { front: *front }, outs)
            } else {
                Ok(())
            }
        }
        Event::FrontSent(front, sent) => {
            let packet = packet_of(alloc, sent)?;
            core.step(
                alloc,
                ServerEvent::FrontPacket {
                    front: *front,
                    packet,
                },
                outs,
            )
        }
        Event::FrontLost(front) => core.step(alloc, ServerEvent::FrontLost { front: *front }, outs),
    }
}

fn play(rt: &impl Abort, alloc: Global, name: &str, turns: &[Turn]) -> Result<(), Fail> {
    let mut core = ServerCore::new(alloc, Strategies::read(alloc, "default")?);
    for (index, (event, told, awaited, held)) in turns.iter().enumerate() {
        let mut outs = Vec::new(alloc);
        take(alloc, &mut core, event, &mut outs)?;
        assert!(rt; are_told(&outs, told), "{name}: outputs of event {index}");
        assert_eq!(rt;
            core.awaited().len(),
            *awaited,
            "{name}: awaited after event {index}"
        );
        assert_eq!(rt;
            core.held().len(),
            *held,
            "{name}: held after event {index}"
        );
    }
    Ok(())
}

fn play_all(rt: &impl Abort, alloc: Global, scenarios: &[(&str, &[Turn])]) -> Result<(), Fail> {
    for (name, turns) in scenarios {
        play(rt, alloc, name, turns)?;
    }
    Ok(())
}

#[test]
fn each_rule_gives_its_outputs(rt: HostRuntime) -> Result<(), Fail> {
    play_all(&rt, rt.alloc(), &SCENARIOS)
}

#[test]
fn the_dial_after_600_is_refused(rt: HostRuntime) -> Result<(), Fail> {
    let alloc = rt.alloc();
    let mut core = ServerCore::new(alloc, Strategies::read(alloc, "default")?);
    let mut outs = Vec::new(alloc);
    take(alloc, &mut core, &Event::LinkUp(1), &mut outs)?;
    take(alloc, &mut core, &Event::FrontUp(1), &mut outs)?;
    for random in 0..600 {
        take(
            alloc,
            &mut core,
            &Event::FrontSent(1, Sent::DialReq("tcp", "a:1", random)),
            &mut outs,
        )?;
    }
    assert_eq!(rt; core.awaited().len(), 600);
    assert_eq!(rt; outs.len(), 1200);
    outs.clear();
    take(
        alloc,
        &mut core,
        &Event::FrontSent(1, Sent::DialReq("tcp", "a:1", 600)),
        &mut outs,
    )?;
    assert!(rt;
        are_told(
            &outs,
            &[Told::ToFront(1, Sent::DialRsp("too many tunnels", 0, 600))]
        )
    );
    assert_eq!(rt; core.next_dial(), 601);
    assert!(rt; core.links().has(1));
    assert_eq!(rt; core.top_front(), 1);
    Ok(())
}

/// The bytes are more than one packet takes, and fewer than two take.
fn send_long(rt: &impl Abort, alloc: Global, bytes: &[u8]) -> Result<(), Fail> {
    let mut core = ServerCore::new(alloc, Strategies::read(alloc, "default")?);
    let mut outs = Vec::new(alloc);
    open_one(alloc, &mut core, &mut outs)?;
    outs.clear();
    let packet = Packet::Data {
        connect_id: 3,
        error: Text::new(alloc),
        bytes: Blob::of(alloc, bytes)?,
    };
    core.step(
        alloc,
        ServerEvent::LinkPacket { link: 1, packet },
        &mut outs,
    )?;
    assert!(rt; are_parts(&outs, bytes));
    Ok(())
}

#[test]
fn bytes_over_one_packet_go_in_two(rt: HostRuntime) -> Result<(), Fail> {
    let bytes = vec![in rt.alloc(); 7; 4_194_001]?;
    send_long(&rt, rt.alloc(), &bytes)
}

#[test]
fn fronts_come_and_go(rt: HostRuntime) -> Result<(), Fail> {
    let mut fronts = Fronts::new(rt.alloc());
    fronts.up(3)?;
    assert!(rt; fronts.has(3));
    fronts.down(3);
    assert!(rt; !fronts.has(3));
    assert_eq!(rt; fronts.top(), 3);
    Ok(())
}
