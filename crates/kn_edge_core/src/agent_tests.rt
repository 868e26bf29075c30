use super::*;
use kn_io::{Blob, NoMemory, Text};
use kn_packet::Packet;
use std::alloc::Global;
use std::process::Abort;
use std::test::Fail;

/// What a row of the table gives to the agent.
enum Act {
    Ask(&'static str, &'static str, i64),
    Data(i64, &'static [u8]),
    Close(i64),
    Cancel(i64),
    Up(u64),
    Refused(u64),
    Bytes(i64, &'static [u8]),
    End(i64),
    Wrote(i64, usize),
    Failed(i64),
    Lost,
    Drain,
}

fn packet_of(alloc: Global, act: &Act) -> Result<Packet, NoMemory> {
    match act {
        Act::Ask(protocol, address, random) => Ok(Packet::DialReq {
            protocol: Text::of(alloc, protocol)?,
            address: Text::of(alloc, address)?,
            random: *random,
        }),
        Act::Data(connect_id, bytes) => Ok(Packet::Data {
            connect_id: *connect_id,
            error: Text::new(alloc),
            bytes: Blob::of(alloc, bytes)?,
        }),
        Act::Close(connect_id) => Ok(Packet::CloseReq {
            connect_id: *connect_id,
        }),
        Act::Cancel(random) => Ok(Packet::DialCls { random: *random }),
        _ => Ok(Packet::Other { number: 99 }),
    }
}

fn event_of(alloc: Global, act: &Act) -> Result<AgentEvent, NoMemory> {
    match act {
        Act::Up(ticket) => Ok(AgentEvent::DialUp { ticket: *ticket }),
        Act::Refused(ticket) => Ok(AgentEvent::DialRefused { ticket: *ticket }),
        Act::Bytes(connect_id, bytes) => Ok(AgentEvent::DestBytes {
            connect_id: *connect_id,
            bytes: Blob::of(alloc, bytes)?,
        }),
        Act::End(connect_id) => Ok(AgentEvent::DestEnd {
            connect_id: *connect_id,
        }),
        Act::Wrote(connect_id, count) => Ok(AgentEvent::DestWrote {
            connect_id: *connect_id,
            count: *count,
        }),
        Act::Failed(connect_id) => Ok(AgentEvent::DestFailed {
            connect_id: *connect_id,
        }),
        Act::Lost => Ok(AgentEvent::LinkLost),
        Act::Drain => Ok(AgentEvent::DrainNow),
        _ => Ok(AgentEvent::Packet(packet_of(alloc, act)?)),
    }
}

fn packet_line(alloc: Global, packet: &Packet) -> Result<String, Fail> {
    match packet {
        Packet::DialRsp {
            error,
            connect_id,
            random,
        } => {
            let error = error.as_str();
            Ok(format!(in alloc; "reply {connect_id} to {random} [{error}]")?)
        }
        Packet::CloseRsp { error, connect_id } => {
            let error = error.as_str();
            Ok(format!(in alloc; "closed {connect_id} [{error}]")?)
        }
        Packet::Data {
            connect_id,
            bytes,
            ..
        } => {
            let count = bytes.len();
            Ok(format!(in alloc; "data {connect_id} of {count}")?)
        }
        Packet::Drain => Ok(String::from_str(alloc, "drain")?),
        _ => Ok(String::from_str(alloc, "another packet")?),
    }
}

fn out_line(alloc: Global, out: &AgentOut) -> Result<String, Fail> {
    match out {
        AgentOut::ToServer(packet) => packet_line(alloc, packet),
        AgentOut::Dial { ticket, address } => {
            let address = address.as_str();
            Ok(format!(in alloc; "dial {ticket} {address}")?)
        }
        AgentOut::Write { connect_id, bytes } => {
            let count = bytes.len();
            Ok(format!(in alloc; "write {connect_id} of {count}")?)
        }
        AgentOut::CloseDest { connect_id } => Ok(format!(in alloc; "close {connect_id}")?),
        AgentOut::DropDial { ticket } => Ok(format!(in alloc; "drop {ticket}")?),
    }
}

/// The outputs of one event, each followed by a semicolon.
fn outputs(alloc: Global, core: &mut AgentCore, act: &Act) -> Result<String, Fail> {
    let event = event_of(alloc, act)?;
    let mut outs = Vec::new(alloc);
    if core.fits(&event) {
        core.step(alloc, event, &mut outs)?;
    }
    let mut line = String::new(alloc);
    for out in &outs {
        line.push_str(out_line(alloc, out)?.as_str())?;
        line.push_str(";")?;
    }
    Ok(line)
}

fn play(
    rt: &impl Abort,
    alloc: Global,
    core: &mut AgentCore,
    table: &[(Act, &str)],
) -> Result<(), Fail> {
    for (act, expected) in table {
        let line = outputs(alloc, core, act)?;
        assert_eq!(rt; line.as_str(), *expected);
    }
    Ok(())
}

static RULES: [(Act, &str); 44] = [
    (
        Act::Ask("udp", "a:1", 7),
        "reply 0 to 7 [unsupported protocol];",
    ),
    (Act::Ask("tcp", "a:1", 7), "dial 1 a:1;"),
    (Act::Ask("tcp", "b:2", 8), "dial 2 b:2;"),
    (Act::Refused(2), "reply 0 to 8 [dial failed];"),
    (Act::Up(2), ""),
    (Act::Refused(9), ""),
    (Act::Up(1), "reply 1 to 7 [];"),
    (Act::Bytes(1, b"hi"), "data 1 of 2;"),
    (Act::Data(1, b"hello"), "write 1 of 5;"),
    (Act::Data(2, b"hello"), ""),
    (Act::Wrote(1, 2), ""),
    (Act::Close(1), ""),
    (Act::Data(1, b"x"), ""),
    (Act::Bytes(1, b"x"), ""),
    (Act::End(1), ""),
    (Act::Close(1), ""),
    (Act::Wrote(1, 2), ""),
    (Act::Wrote(1, 1), "close 1;closed 1 [];"),
    (Act::Close(1), "closed 1 [unknown connection];"),
    (Act::Close(-1), "closed -1 [unknown connection];"),
    (Act::Ask("tcp", "c:3", 9), "dial 3 c:3;"),
    (Act::Up(3), "reply 2 to 9 [];"),
    (Act::Close(2), "close 2;closed 2 [];"),
    (Act::Ask("tcp", "d:4", -9), "dial 4 d:4;"),
    (Act::Up(4), "reply 3 to -9 [];"),
    (Act::Data(3, b"abc"), "write 3 of 3;"),
    (Act::End(3), "close 3;closed 3 [];"),
    (Act::Ask("tcp", "e:5", 1), "dial 5 e:5;"),
    (Act::Up(5), "reply 4 to 1 [];"),
    (Act::Failed(4), "close 4;closed 4 [destination failed];"),
    (Act::Cancel(1), ""),
    (Act::Drain, "drain;"),
    (Act::Drain, ""),
    (Act::Ask("tcp", "f:6", 2), "dial 6 f:6;"),
    (Act::Ask("tcp", "g:7", 3), "dial 7 g:7;"),
    (Act::Ask("tcp", "h:8", 4), "dial 8 h:8;"),
    (Act::Up(8), "reply 5 to 4 [];"),
    (Act::Up(7), "reply 6 to 3 [];"),
    (Act::Ask("tcp", "i:9", 5), "dial 9 i:9;"),
    (Act::Lost, "drop 6;drop 9;close 5;close 6;"),
    (Act::Ask("tcp", "j:1", 6), ""),
    (Act::Close(99), ""),
    (Act::Up(6), ""),
    (Act::Lost, ""),
];

fn rules() -> &'static [(Act, &'static str)] {
    &RULES
}

#[test]
fn each_rule_of_the_agent(rt: HostRuntime) -> Result<(), Fail> {
    let mut core = AgentCore::new(rt.alloc());
    play(&rt, rt.alloc(), &mut core, rules())
}

static LAST: [(Act, &str); 4] = [
    (
        Act::Ask("tcp", "b:2", 8),
        "reply 0 to 8 [too many connections];",
    ),
    (Act::Up(1), "reply 1 to 7 [];"),
    (Act::Refused(2), "reply 0 to 7 [dial failed];"),
    (Act::Ask("tcp", "b:2", 8), "dial 601 b:2;"),
];

fn last() -> &'static [(Act, &'static str)] {
    &LAST
}

#[test]
fn six_hundred_dials_and_the_next(rt: HostRuntime) -> Result<(), Fail> {
    let mut core = AgentCore::new(rt.alloc());
    for _ in 0..600 {
        outputs(rt.alloc(), &mut core, &Act::Ask("tcp", "a:1", 7))?;
    }
    assert_eq!(rt; core.dials(), 600);
    assert_eq!(rt; core.random_of(600), Some(7));
    assert_eq!(rt; core.random_of(601), None);
    play(&rt, rt.alloc(), &mut core, last())?;
    assert_eq!(rt; core.connections(), 1);
    assert_eq!(rt; core.state_of(1), Some(DestState::Open));
    assert_eq!(rt; core.unwritten_of(1), Some(0));
    assert_eq!(rt; core.state_of(-1), None);
    assert_eq!(rt; core.next_connect_id(), 2);
    Ok(())
}
