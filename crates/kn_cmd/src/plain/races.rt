// Scripts that show a race, a close, a loss or a choice each, with the reports that they end in.
use super::*;
use kn_io::{Blob, MemSink, MemSource};
use std::process::Abort;
use std::test::Fail;

#[derive(Clone, Copy)]
struct Race {
    shows: &'static str,
    list: &'static str,
    script: &'static str,
    report: &'static str,
}

const RACES: [Race; 17] = [
    Race {
        shows: "two clients that draw one random",
        list: "default",
        script: "agent -\nclient\nclient\napp 1 a:1\napp 2 b:2\npass\nup 1\nup 2\npass\nsend 1 61\nsend 2 62\npass\n",
        report: "agents 1 clients 2 apps 2 dials 2 idle 0\napp 1 open sent 1 got 0 -\napp 2 open sent 1 got 0 -\ndial 1 link 1 app 1 open sent 0 got 1 61\ndial 2 link 1 app 2 open sent 0 got 1 62\ntables awaited 0 held 2 dials 0 connections 2\nquiet yes closed no\n",
    },
    Race {
        shows: "two agents that draw one connectID",
        list: "default",
        script: "agent -\nagent -\nclient\napp 1 a:1\napp 1 b:2\npass\nup 1\nup 2\npass\nanswer 1 61\nanswer 2 62\npass\n",
        report: "agents 2 clients 1 apps 2 dials 2 idle 0\napp 1 open sent 0 got 1 61\napp 2 open sent 0 got 1 62\ndial 1 link 2 app 1 open sent 1 got 0 -\ndial 2 link 1 app 2 open sent 1 got 0 -\ntables awaited 0 held 2 dials 0 connections 2\nquiet yes closed no\n",
    },
    Race {
        shows: "a dial that is cancelled before its reply",
        list: "default",
        script: "agent -\nclient\napp 1 a:1\npass\nend 1\npass\nup 1\npass\n",
        report: "agents 1 clients 1 apps 1 dials 1 idle 0\napp 1 ended sent 0 got 0 -\ndial 1 link 1 app 1 ended sent 0 got 0 -\ntables awaited 0 held 0 dials 0 connections 0\nquiet yes closed yes\n",
    },
    Race {
        shows: "a cancelled dial whose destination closes too",
        list: "default",
        script: "agent -\nclient\napp 1 a:1\npass\nend 1\npass\nup 1\nhang 1\npass\n",
        report: "agents 1 clients 1 apps 1 dials 1 idle 0\napp 1 ended sent 0 got 0 -\ndial 1 link 1 app 1 ended sent 0 got 0 -\ntables awaited 0 held 0 dials 0 connections 0\nquiet yes closed yes\n",
    },
    Race {
        shows: "closes that cross",
        list: "default",
        script: "agent -\nclient\napp 1 a:1\npass\nup 1\npass\nend 1\nhang 1\nstep client 1 up\npass\n",
        report: "agents 1 clients 1 apps 1 dials 1 idle 0\napp 1 ended sent 0 got 0 -\ndial 1 link 1 app 1 ended sent 0 got 0 -\ntables awaited 0 held 0 dials 0 connections 0\nquiet yes closed yes\n",
    },
    Race {
        shows: "a reply that crosses a cancel at the client",
        list: "default",
        script: "agent -\nclient\napp 1 a:1\npass\nup 1\nstep agent 1 up\nend 1\npass\n",
        report: "agents 1 clients 1 apps 1 dials 1 idle 0\napp 1 ended sent 0 got 0 -\ndial 1 link 1 app 1 ended sent 0 got 0 -\ntables awaited 0 held 0 dials 0 connections 0\nquiet yes closed yes\n",
    },
    Race {
        shows: "a link that the server lost",
        list: "default",
        script: "agent -\nclient\napp 1 a:1\napp 1 b:2\npass\nup 1\npass\nlose server 1\npass\n",
        report: "agents 1 clients 1 apps 2 dials 2 idle 0\napp 1 ended sent 0 got 0 - error agent lost\napp 2 refused sent 0 got 0 - error agent lost\ndial 1 link 1 app 1 open sent 0 got 0 -\ndial 2 link 1 app 2 dialling sent 0 got 0 -\ntables awaited 0 held 0 dials 1 connections 1\nquiet no closed yes\n",
    },
    Race {
        shows: "a link that both ends lost",
        list: "default",
        script: "agent -\nclient\napp 1 a:1\napp 1 b:2\npass\nup 1\npass\nlose server 1\npass\nlose agent 1\n",
        report: "agents 1 clients 1 apps 2 dials 2 idle 0\napp 1 ended sent 0 got 0 - error agent lost\napp 2 refused sent 0 got 0 - error agent lost\ndial 1 link 1 app 1 ended sent 0 got 0 -\ndial 2 link 1 app 2 ended sent 0 got 0 -\ntables awaited 0 held 0 dials 0 connections 0\nquiet yes closed yes\n",
    },
    Race {
        shows: "an agent that is chosen by its identifiers",
        list: "destHost",
        script: "agent host=db\nclient\napp 1 web:80\napp 1 db:80\npass\n",
        report: "agents 1 clients 1 apps 2 dials 1 idle 0\napp 1 refused sent 0 got 0 - error no agent available\napp 2 dialling sent 0 got 0 -\ndial 1 link 1 app 2 dialling sent 0 got 0 -\ntables awaited 1 held 0 dials 1 connections 0\nquiet no closed no\n",
    },
    Race {
        shows: "an agent that drains",
        list: "default",
        script: "agent -\nagent -\ndrain 1\nclient\napp 1 a:1\npass\n",
        report: "agents 2 clients 1 apps 1 dials 1 idle 0\napp 1 dialling sent 0 got 0 -\ndial 1 link 2 app 1 dialling sent 0 got 0 -\ntables awaited 1 held 0 dials 1 connections 0\nquiet no closed no\n",
    },
    Race {
        shows: "one of two apps of a client cancels",
        list: "default",
        script: "agent -\nclient\napp 1 a:1\napp 1 b:2\npass\nup 1\nend 2\npass\nup 2\npass\nsend 1 61\npass\n",
        report: "agents 1 clients 1 apps 2 dials 2 idle 0\napp 1 open sent 1 got 0 -\napp 2 ended sent 0 got 0 -\ndial 1 link 1 app 1 open sent 0 got 1 61\ndial 2 link 1 app 2 ended sent 0 got 0 -\ntables awaited 0 held 1 dials 0 connections 1\nquiet yes closed no\n",
    },
    Race {
        shows: "a close that lingers",
        list: "default",
        script: "agent -\nclient\napp 1 a:1\npass\nup 1\npass\nhold dest 1\nsend 1 68656c6c6f\nend 1\npass\n",
        report: "agents 1 clients 1 apps 1 dials 1 idle 0\napp 1 closing sent 5 got 0 -\ndial 1 link 1 app 1 lingering sent 0 got 0 -\ntables awaited 0 held 1 dials 0 connections 1\nquiet no closed yes\n",
    },
    Race {
        shows: "a close that lingered",
        list: "default",
        script: "agent -\nclient\napp 1 a:1\npass\nup 1\npass\nhold dest 1\nsend 1 68656c6c6f\nend 1\npass\ntake dest 1 5\npass\n",
        report: "agents 1 clients 1 apps 1 dials 1 idle 0\napp 1 ended sent 5 got 0 -\ndial 1 link 1 app 1 ended sent 0 got 5 68656c6c6f\ntables awaited 0 held 0 dials 0 connections 0\nquiet yes closed yes\n",
    },
    Race {
        shows: "a CONNECT app with early bytes",
        list: "default",
        script: "agent -\nraw 434f4e4e4543542064623a383020485454502f312e310d0a486f73743a2064623a38300d0a0d0a6869\npass\nup 1\npass\n",
        report: "agents 1 clients 0 apps 1 dials 1 idle 0\napp 1 open sent 2 got 0 -\ndial 1 link 1 app 1 open sent 0 got 2 6869\ntables awaited 0 held 1 dials 0 connections 1\nquiet yes closed no\n",
    },
    Race {
        shows: "a CONNECT app with another method",
        list: "default",
        script: "raw 474554202f20485454502f312e310d0a0d0a\n",
        report: "agents 0 clients 0 apps 1 dials 0 idle 0\napp 1 refused sent 0 got 0 - error 405 Method Not Allowed\ntables awaited 0 held 0 dials 0 connections 0\nquiet yes closed yes\n",
    },
    Race {
        shows: "a CONNECT app whose target has no port",
        list: "default",
        script: "raw 434f4e4e45435420646220485454502f312e310d0a0d0a\n",
        report: "agents 0 clients 0 apps 1 dials 0 idle 0\napp 1 refused sent 0 got 0 - error 400 Bad Request\ntables awaited 0 held 0 dials 0 connections 0\nquiet yes closed yes\n",
    },
    Race {
        shows: "a CONNECT app without an agent",
        list: "default",
        script: "connect db:80\n",
        report: "agents 0 clients 0 apps 1 dials 0 idle 0\napp 1 refused sent 0 got 0 - error 503 Service Unavailable\ntables awaited 0 held 0 dials 0 connections 0\nquiet yes closed yes\n",
    },
];

fn check_races(rt: &impl Abort, alloc: Global, races: &[Race]) -> Result<(), Fail> {
    for race in races {
        let mut source = MemSource::new(
            Blob::of(alloc, race.script.as_bytes())?,
            16,
            Vec::new(alloc),
        );
        let mut out = MemSink::new(alloc, Vec::new(alloc));
        let mut err = MemSink::new(alloc, Vec::new(alloc));
        let status = run_plain(
            alloc,
            &["replay", race.list],
            &mut source,
            &mut out,
            &mut err,
        );
        assert!(rt; status == 0, "{:?}", race.shows);
        assert!(rt; out.written() == race.report.as_bytes(), "{:?}", race.shows);
    }
    Ok(())
}

#[test]
fn reports_races(rt: HostRuntime) -> Result<(), Fail> {
    check_races(&rt, rt.alloc(), &RACES)
}
