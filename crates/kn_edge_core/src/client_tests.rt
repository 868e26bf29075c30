use super::*;
use kn_io::{Blob, NoMemory, Text};
use kn_packet::Packet;
use std::alloc::Global;
use std::process::Abort;
use std::test::Fail;

/// What a row of the table gives to the client.
enum Act {
    Up(u64, &'static str),
    Bytes(u64, &'static [u8]),
    End(u64),
    Failed(u64),
    Wrote(u64, usize),
    Reply(&'static str, i64, i64),
    Data(i64, &'static [u8]),
    Closed(&'static str, i64),
    Drain,
    Over(&'static str),
}

fn packet_of(alloc: Global, act: &Act) -> Result<Packet, NoMemory> {
    match act {
        Act::Reply(error, connect_id, random) => Ok(Packet::DialRsp {
            error: Text::of(alloc, error)?,
            connect_id: *connect_id,
            random: *random,
        }),
        Act::Data(connect_id, bytes) => Ok(Packet::Data {
            connect_id: *connect_id,
            error: Text::new(alloc),
            bytes: Blob::of(alloc, bytes)?,
        }),
        Act::Closed(error, connect_id) => Ok(Packet::CloseRsp {
            error: Text::of(alloc, error)?,
            connect_id: *connect_id,
        }),
        _ => Ok(Packet::Drain),
    }
}

fn event_of(alloc: Global, act: &Act) -> Result<ClientEvent, NoMemory> {
    match act {
        Act::Up(app, address) => Ok(ClientEvent::AppUp {
            app: *app,
            address: Text::of(alloc, address)?,
        }),
        Act::Bytes(app, bytes) => Ok(ClientEvent::AppBytes {
            app: *app,
            bytes: Blob::of(alloc, bytes)?,
        }),
        Act::End(app) => Ok(ClientEvent::AppEnd { app: *app }),
        Act::Failed(app) => Ok(ClientEvent::AppFailed { app: *app }),
        Act::Wrote(app, count) => Ok(ClientEvent::AppWrote {
            app: *app,
            count: *count,
        }),
        Act::Over(error) => Ok(ClientEvent::StreamEnded {
            error: Text::of(alloc, error)?,
        }),
        _ => Ok(ClientEvent::Packet(packet_of(alloc, act)?)),
    }
}

fn packet_line(alloc: Global, packet: &Packet) -> Result<String, Fail> {
    match packet {
        Packet::DialReq {
            protocol,
            address,
            random,
        } => {
            let protocol = protocol.as_str();
            let address = address.as_str();
            Ok(format!(in alloc; "ask {protocol} {address} {random}")?)
        }
        Packet::CloseReq { connect_id } => Ok(format!(in alloc; "close {connect_id}")?),
        Packet::DialCls { random } => Ok(format!(in alloc; "cancel {random}")?),
        Packet::Data {
            connect_id,
            bytes,
            ..
        } => {
            let count = bytes.len();
            Ok(format!(in alloc; "data {connect_id} of {count}")?)
        }
        _ => Ok(String::from_str(alloc, "another packet")?),
    }
}

fn out_line(alloc: Global, out: &ClientOut) -> Result<String, Fail> {
    match out {
        ClientOut::ToServer(packet) => packet_line(alloc, packet),
        ClientOut::ToApp { app, bytes } => {
            let count = bytes.len();
            Ok(format!(in alloc; "write {app} of {count}")?)
        }
        ClientOut::EndApp { app, error } => {
            let error = error.as_str();
            Ok(format!(in alloc; "end {app} [{error}]")?)
        }
    }
}

/// The outputs of one event, each followed by a semicolon.
fn outputs(alloc: Global, core: &mut ClientCore, act: &Act) -> Result<String, Fail> {
    let event = event_of(alloc, act)?;
    let mut outs = Vec::new(alloc);
    if core.fits(&event) {
        core.step(alloc, event, &mut outs)?;
    }
    let mut line = String::new(alloc);
    for out in &outs {
        line.push_str(out_line(alloc, out)?.as_str())?;
        line.push_str(";")?;
    }
    Ok(line)
}

fn play(
    rt: &impl Abort,
    alloc: Global,
    core: &mut ClientCore,
    table: &[(Act, &str)],
) -> Result<(), Fail> {
    for (act, expected) in table {
        let line = outputs(alloc, core, act)?;
        assert_eq!(rt; line.as_str(), *expected);
    }
    Ok(())
}

static RULES: [(Act, &str); 65] = [
    (Act::Up(1, "a:1"), "ask tcp a:1 1;"),
    (Act::Bytes(1, b"x"), ""),
    (Act::End(1), "cancel 1;end 1 [];"),
    (Act::Reply("", 5, 1), "close 5;"),
    (Act::Up(2, "b:2"), "ask tcp b:2 2;"),
    (Act::Reply("agent lost", 0, 2), "end 2 [agent lost];"),
    (Act::Up(3, "c:3"), "ask tcp c:3 3;"),
    (Act::Reply("", 7, 3), ""),
    (Act::Bytes(3, b"hi"), "data 7 of 2;"),
    (Act::Reply("", 8, 3), "close 8;"),
    (Act::Reply("late", 0, 3), ""),
    (Act::Reply("", 9, -1), "close 9;"),
    (Act::Data(7, b"hello"), "write 3 of 5;"),
    (Act::Data(6, b"x"), ""),
    (Act::Wrote(3, 2), ""),
    (Act::Closed("done", 7), ""),
    (Act::Data(7, b"x"), ""),
    (Act::Closed("again", 7), ""),
    (Act::End(3), ""),
    (Act::Wrote(3, 1), ""),
    (Act::Wrote(3, 2), "end 3 [done];"),
    (Act::Up(4, "d:4"), "ask tcp d:4 4;"),
    (Act::Reply("", 7, 4), ""),
    (Act::End(4), "close 7;"),
    (Act::End(4), ""),
    (Act::Bytes(4, b"x"), ""),
    (Act::Data(7, b"x"), ""),
    (Act::Closed("", 7), "end 4 [];"),
    (Act::Up(5, "e:5"), "ask tcp e:5 5;"),
    (Act::Failed(5), "cancel 5;end 5 [];"),
    (Act::Up(6, "f:6"), "ask tcp f:6 6;"),
    (Act::Reply("", 9, 6), ""),
    (Act::Failed(6), "close 9;end 6 [];"),
    (Act::Up(7, "g:7"), "ask tcp g:7 7;"),
    (Act::Reply("", 10, 7), ""),
    (Act::End(7), "close 10;"),
    (Act::Failed(7), "end 7 [];"),
    (Act::Up(8, "h:8"), "ask tcp h:8 8;"),
    (Act::Reply("", 11, 8), ""),
    (Act::Data(11, b"ab"), "write 8 of 2;"),
    (Act::Closed("e", 11), ""),
    (Act::Failed(8), "end 8 [];"),
    (Act::Up(9, "i:9"), "ask tcp i:9 9;"),
    (Act::Reply("", -20, 9), ""),
    (Act::Up(10, "j:1"), "ask tcp j:1 10;"),
    (Act::Reply("", -20, 10), ""),
    (Act::Data(-20, b"x"), "write 9 of 1;"),
    (Act::End(9), "close -20;"),
    (Act::Data(-20, b"yy"), "write 10 of 2;"),
    (Act::Closed("z", -20), ""),
    (Act::Closed("w", -20), ""),
    (Act::Drain, ""),
    (Act::Up(11, "k:2"), "ask tcp k:2 11;"),
    (Act::Up(12, "l:3"), "ask tcp l:3 12;"),
    (Act::Reply("", 30, 12), ""),
    (Act::Up(13, "m:4"), "ask tcp m:4 13;"),
    (Act::Reply("", 31, 13), ""),
    (Act::Data(31, b"q"), "write 13 of 1;"),
    (
        Act::Over("stream ended"),
        "end 11 [stream ended];end 12 [stream ended];",
    ),
    (Act::Wrote(13, 1), "end 13 [stream ended];"),
    (Act::Wrote(9, 1), "end 9 [z];"),
    (Act::Wrote(10, 2), "end 10 [w];"),
    (Act::Wrote(10, 0), ""),
    (Act::Failed(10), ""),
    (Act::Up(14, "n:5"), "ask tcp n:5 14;"),
];

fn rules() -> &'static [(Act, &'static str)] {
    &RULES
}

static OPENING: [(Act, &str); 2] = [
    (Act::Reply("", 40, 14), ""),
    (Act::Data(40, b"abc"), "write 14 of 3;"),
];

fn opening() -> &'static [(Act, &'static str)] {
    &OPENING
}

#[test]
fn each_rule_of_the_client(rt: HostRuntime) -> Result<(), Fail> {
    let mut core = ClientCore::new(rt.alloc());
    play(&rt, rt.alloc(), &mut core, rules())?;
    assert_eq!(rt; core.apps(), 1);
    assert_eq!(rt; core.state_of(14), Some(AppState::Dialling));
    play(&rt, rt.alloc(), &mut core, opening())?;
    assert_eq!(rt; core.state_of(14), Some(AppState::Open));
    assert_eq!(rt; core.unwritten_of(14), Some(3));
    assert_eq!(rt; core.taker_of(40), Some(14));
    assert_eq!(rt; core.taker_of(41), None);
    assert_eq!(rt; core.state_of(13), None);
    assert_eq!(rt; core.top_app(), 14);
    Ok(())
}
