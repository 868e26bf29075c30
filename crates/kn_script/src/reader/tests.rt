use super::*;
use crate::fault::ScriptReason;
use kn_world::Pipe;
use std::process::Abort;
use std::test::Fail;

/// Scripts that are refused, with the line and the reason.
const REFUSED: [(&str, usize, ScriptReason); 66] = [
    ("# caf\u{e9}", 1, ScriptReason::Byte),
    ("client\n\ragent -", 2, ScriptReason::Byte),
    ("agent -\tx", 1, ScriptReason::Byte),
    ("foo \u{7f}", 1, ScriptReason::Byte),
    ("client\nagnet -\n", 2, ScriptReason::Word),
    ("\n# x\n\nfoo", 4, ScriptReason::Word),
    (" client", 1, ScriptReason::Word),
    (" # x", 1, ScriptReason::Word),
    ("Client", 1, ScriptReason::Word),
    ("foo  bar", 1, ScriptReason::Word),
    ("hold agent 1", 1, ScriptReason::Word),
    ("hold  1", 1, ScriptReason::Count),
    ("go x 01", 1, ScriptReason::Word),
    ("take Dest 1 0", 1, ScriptReason::Word),
    ("lose dest 1", 1, ScriptReason::Word),
    ("step server 1 up", 1, ScriptReason::Word),
    ("agent -\nstep agent 1 left", 2, ScriptReason::Word),
    ("agent", 1, ScriptReason::Count),
    ("agent  -", 1, ScriptReason::Count),
    ("agent - -", 1, ScriptReason::Count),
    ("client ", 1, ScriptReason::Count),
    ("client\napp 1\n", 2, ScriptReason::Count),
    ("client\napp 1 a:1 ", 2, ScriptReason::Count),
    ("client\nclient x", 2, ScriptReason::Count),
    ("up", 1, ScriptReason::Count),
    ("answer 1 ", 1, ScriptReason::Count),
    ("pass 1 2", 1, ScriptReason::Count),
    ("connect", 1, ScriptReason::Count),
    ("take dest 1", 1, ScriptReason::Count),
    ("take dest 1 2 3", 1, ScriptReason::Count),
    ("agent -\nstep agent 1 up ", 2, ScriptReason::Count),
    ("up 01", 1, ScriptReason::Number),
    ("up +1", 1, ScriptReason::Number),
    ("pass x", 1, ScriptReason::Number),
    ("answer x zz", 1, ScriptReason::Number),
    ("send 01 zz", 1, ScriptReason::Number),
    ("end x", 1, ScriptReason::Number),
    ("hold dest x", 1, ScriptReason::Number),
    ("take dest 1 00", 1, ScriptReason::Number),
    ("step agent x left", 1, ScriptReason::Number),
    ("answer 1 6", 1, ScriptReason::Hex),
    ("answer 1 6A", 1, ScriptReason::Hex),
    ("answer 1 6g", 1, ScriptReason::Hex),
    ("raw -", 1, ScriptReason::Hex),
    ("send 1 61\n", 1, ScriptReason::Name),
    ("send 1 zz", 1, ScriptReason::Name),
    ("client\napp 2 a:1", 2, ScriptReason::Name),
    ("client\napp 0 a:1", 2, ScriptReason::Name),
    (
        "client\napp 18446744073709551617 a:1",
        2,
        ScriptReason::Name,
    ),
    ("connect a:1\nend 2", 2, ScriptReason::Name),
    ("drain 1", 1, ScriptReason::Name),
    ("hold app 1", 1, ScriptReason::Name),
    ("take app 1 x", 1, ScriptReason::Name),
    ("agent -\nlose front 1", 2, ScriptReason::Name),
    ("client\nlose server 1", 2, ScriptReason::Name),
    ("client\nstep agent 1 left", 2, ScriptReason::Name),
    ("up 9223372036854775807", 1, ScriptReason::Limit),
    (
        "up 99999999999999999999999999999999999999",
        1,
        ScriptReason::Limit,
    ),
    ("pass 0", 1, ScriptReason::Limit),
    ("pass 10001", 1, ScriptReason::Limit),
    ("take dest 1 0", 1, ScriptReason::Limit),
    ("take dest 1 9223372036854775807", 1, ScriptReason::Limit),
    ("hold dest 9223372036854775807", 1, ScriptReason::Limit),
    ("agent x", 1, ScriptReason::Identifiers),
    ("agent color=red", 1, ScriptReason::Identifiers),
    ("agent host=db&x", 1, ScriptReason::Identifiers),
];

fn refuses_all(rt: &impl Abort, alloc: Global, cases: &[(&str, usize, ScriptReason)]) {
    for (script, line, reason) in cases {
        let fault = ScriptFault {
            line: *line,
            reason: *reason,
        };
        let answer = read_script(alloc, script.as_bytes()).err();
        assert!(rt; answer == Some(ScriptError::Fault(fault)), "{script:?}");
    }
}

#[test]
fn refuses(rt: HostRuntime) {
    refuses_all(&rt, rt.alloc(), &REFUSED);
}

/// A line that is over a limit: the lines before it, a line, and how often it may stand.
const LIMITS: [(&str, &str, usize); 4] = [
    ("", "agent -\n", 100),
    ("", "client\n", 100),
    ("client\n", "app 1 a:1\n", 600),
    ("", "connect a:1\n", 600),
];

fn limits_all(rt: &impl Abort, alloc: Global, cases: &[(&str, &str, usize)]) -> Result<(), Fail> {
    for (before, line, count) in cases {
        let mut script = String::new(alloc);
        script.push_str(before)?;
        for _ in 0..*count {
            script.push_str(line)?;
        }
        let whole = read_script(alloc, script.as_str().as_bytes())?;
        script.push_str(line)?;
        let answer = read_script(alloc, script.as_str().as_bytes()).err();
        let fault = ScriptFault {
            line: whole.len() + 1,
            reason: ScriptReason::Limit,
        };
        assert!(rt; answer == Some(ScriptError::Fault(fault)), "{line:?}");
    }
    Ok(())
}

#[test]
fn limits(rt: HostRuntime) -> Result<(), Fail> {
    limits_all(&rt, rt.alloc(), &LIMITS)
}

const EVERY_WORD: &str =
    "agent -\nagent host=db\n\n# x\nclient\napp 1 db:80\nconnect db:80\nraw 6869\npass\npass 10000\nup 0\nrefuse 9223372036854775806\nsend 1 00ff\nanswer 1 6f6b\nend 3\nhang 2\nfail 4\ndrain 2\nhold dest 5\nhold app 2\ntake dest 6 7\ntake app 1 9223372036854775806\ngo dest 8\ngo app 3\nlose server 2\nlose agent 1\nlose front 1\nlose client 1\nstep agent 2 up\nstep agent 1 down\nstep client 1 up\nstep client 1 down";

#[test]
fn reads(rt: HostRuntime) -> Result<(), Fail> {
    let events = read_script(rt.alloc(), EVERY_WORD.as_bytes())?;
    assert_eq!(rt; events.len(), 30);
    assert!(rt;
        matches!(&events[1], WorldEvent::Agent { identifiers } if identifiers.as_str() == "host=db")
    );
    assert!(rt;
        matches!(&events[5], WorldEvent::Raw { bytes } if bytes.as_slice() == b"hi".as_slice())
    );
    assert!(rt; matches!(&events[6], WorldEvent::Pass { rounds: 64 }));
    assert!(rt; matches!(&events[12], WorldEvent::End { app: 3 }));
    assert!(rt; matches!(&events[18], WorldEvent::TakeDest { dial: 6, count: 7 }));
    assert!(rt; matches!(&events[22], WorldEvent::LoseServer { agent: 2 }));
    assert!(rt;
        matches!(
            &events[27],
            WorldEvent::Step {
                pipe: Pipe::AgentDown(1)
            }
        )
    );
    assert_eq!(rt; read_script(rt.alloc(), b"\n\n# a comment\n")?.len(), 0);
    Ok(())
}
