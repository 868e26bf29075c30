ghost use Rattle.std.specs.Prelude.{◌≡◌, ◌++◌, ◌-◌, ◌≤◌, ◌<◌, length, take, slice_index_or, IfOk, OnOk};
ghost use Rattle.kn_world.specs.Views.{shown};
ghost use Rattle.kn_world.specs.Shown.{AppShown, DialShown};
ghost use Rattle.kn_script.specs.Report.{report_of, labelled, head_line, app_line, dial_line, numbered, tables_line, end_line, traffic, answer_text, app_phase_text, dial_phase_text, app_line_of, dial_line_of, front_text, error_text, hex_of, hex_glyph};

use kn_io::{Blob, NoMemory};
use kn_world::{AppPhase, DialPhase, World};
use std::alloc::Global;

/// How many of the bytes that a side got are shown.
const SHOWN_BYTES: usize = 16;

/// How many agents, clients, apps and dials a world has.
#[derive(Clone, Copy)]
struct Counts {
    agents: usize,
    clients: usize,
    apps: usize,
    dials: u64,
}

/// A dial with its link and its app.
#[derive(Clone, Copy)]
struct Place {
    dial: u64,
    link: u64,
    app: usize,
}

fn app_phase_text(phase: AppPhase) -> &'static str
    ensures { result.now ≡ app_phase_text phase }
{
    match phase {
        AppPhase::Dialling => "dialling",
        AppPhase::Open => "open",
        AppPhase::Closing => "closing",
        AppPhase::Lingering => "lingering",
        AppPhase::Refused => "refused",
        AppPhase::Ended => "ended",
    }
}

fn dial_phase_text(phase: DialPhase) -> &'static str
    ensures { result.now ≡ dial_phase_text phase }
{
    match phase {
        DialPhase::Asked => "asked",
        DialPhase::Dialling => "dialling",
        DialPhase::Open => "open",
        DialPhase::Lingering => "lingering",
        DialPhase::Ended => "ended",
    }
}

fn answer_text(yes: bool) -> &'static str
    ensures { result.now ≡ answer_text yes }
{
    if yes { "yes" } else { "no" }
}

fn push_text(out: &mut Blob, text: &str) -> Result<(), NoMemory>
    ensures { OnOk result (out.new ≡ out.old ++ text.now) }
{
    out.append(text.as_bytes())
}

fn push_number(alloc: Global, out: &mut Blob, label: &str, number: u64) -> Result<(), NoMemory>
    ensures { OnOk result (out.new ≡ out.old ++ labelled label.now number) }
{
    push_text(out, label)?;
    let digits = number.to_string(alloc)?;
    push_text(out, digits.as_str())
}

fn hex_glyph(digit: u8) -> u8
    requires { digit < 16 }
    ensures { result ≡ hex_glyph digit }
{
    if digit < 10 {
        b'0' + digit
    } else {
        b'a' + (digit - 10)
    }
}

fn push_hex(out: &mut Blob, bytes: &[u8]) -> Result<(), NoMemory>
    ensures { OnOk result (out.new ≡ out.old ++ hex_of bytes.now) }
{
    for byte in bytes {
        out.append(&[hex_glyph(*byte / 16), hex_glyph(*byte % 16)])?;
    }
    Ok(())
}

/// The first bytes that a side got, or a dash where it got none.
fn push_front(out: &mut Blob, got: &[u8]) -> Result<(), NoMemory>
    ensures { OnOk result (out.new ≡ out.old ++ front_text got.now) }
{
    if got.is_empty() {
        push_text(out, "-")
    } else {
        push_hex(out, &got[..got.len().min(SHOWN_BYTES)])
    }
}

fn push_error(out: &mut Blob, error: &str) -> Result<(), NoMemory>
    ensures { OnOk result (out.new ≡ out.old ++ error_text error.now) }
{
    if error.is_empty() {
        Ok(())
    } else {
        push_text(out, " error ")?;
        push_text(out, error)
    }
}

#[tactic(auto, using(crate::proofs::ReportLemmas::in_pieces), unfolding(crate::specs::Report::traffic))]
fn push_traffic(alloc: Global, out: &mut Blob, sent: &[u8], got: &[u8]) -> Result<(), NoMemory>
    ensures { OnOk result (out.new ≡ out.old ++ traffic sent.now got.now) }
{
    push_number(alloc, out, " sent ", sent.len() as u64)?;
    push_number(alloc, out, " got ", got.len() as u64)?;
    push_text(out, " ")?;
    push_front(out, got)
}

/// The first line.
#[tactic(auto, using(crate::proofs::ReportLemmas::in_pieces), unfolding(crate::specs::Report::head_line))]
fn push_head(alloc: Global, out: &mut Blob, counts: Counts, idle: u64) -> Result<(), NoMemory>
    ensures { OnOk result (out.new ≡ out.old ++ head_line counts.agents counts.clients counts.apps counts.dials idle) }
{
    push_number(alloc, out, "agents ", counts.agents as u64)?;
    push_number(alloc, out, " clients ", counts.clients as u64)?;
    push_number(alloc, out, " apps ", counts.apps as u64)?;
    push_number(alloc, out, " dials ", counts.dials)?;
    push_number(alloc, out, " idle ", idle)?;
    push_text(out, "\n")
}

/// A line of an app.
#[tactic(auto, using(crate::proofs::ReportLemmas::in_pieces), unfolding(crate::specs::Report::app_line_of))]
fn push_app_line(
    alloc: Global,
    out: &mut Blob,
    number: u64,
    phase: AppPhase,
    sent: &[u8],
    got: &[u8],
    error: &str,
) -> Result<(), NoMemory>
    ensures { OnOk result (out.new ≡ out.old ++ app_line_of number phase sent.now got.now error.now) }
{
    push_number(alloc, out, "app ", number)?;
    push_text(out, " ")?;
    push_text(out, app_phase_text(phase))?;
    push_traffic(alloc, out, sent, got)?;
    push_error(out, error)?;
    push_text(out, "\n")
}

/// A line of a dial.
#[tactic(auto, using(crate::proofs::ReportLemmas::in_pieces), unfolding(crate::specs::Report::dial_line_of))]
fn push_dial_line(
    alloc: Global,
    out: &mut Blob,
    place: Place,
    phase: DialPhase,
    sent: &[u8],
    got: &[u8],
) -> Result<(), NoMemory>
    ensures { OnOk result (out.new ≡ out.old ++ dial_line_of place.dial place.link place.app phase sent.now got.now) }
{
    push_number(alloc, out, "dial ", place.dial)?;
    push_number(alloc, out, " link ", place.link)?;
    push_number(alloc, out, " app ", place.app as u64)?;
    push_text(out, " ")?;
    push_text(out, dial_phase_text(phase))?;
    push_traffic(alloc, out, sent, got)?;
    push_text(out, "\n")
}

/// The line of the tables.
fn push_tables(
    alloc: Global,
    out: &mut Blob,
    awaited: u64,
    held: u64,
    dials: u64,
    connections: u64,
) -> Result<(), NoMemory>
    ensures { OnOk result (out.new ≡ out.old ++ tables_line awaited held dials connections) }
{
    push_number(alloc, out, "tables awaited ", awaited)?;
    push_number(alloc, out, " held ", held)?;
    push_number(alloc, out, " dials ", dials)?;
    push_number(alloc, out, " connections ", connections)?;
    push_text(out, "\n")
}

/// The last line.
#[tactic(auto, using(crate::proofs::ReportLemmas::in_pieces), unfolding(crate::specs::Report::end_line))]
fn push_end(out: &mut Blob, quiet: bool, closed: bool) -> Result<(), NoMemory>
    ensures { OnOk result (out.new ≡ out.old ++ end_line quiet closed) }
{
    push_text(out, "quiet ")?;
    push_text(out, answer_text(quiet))?;
    push_text(out, " closed ")?;
    push_text(out, answer_text(closed))?;
    push_text(out, "\n")
}

/// A line for an app of a world.
fn push_app(alloc: Global, out: &mut Blob, world: &World, app: usize) -> Result<(), NoMemory>
    requires first { 1 ≤ app }
    requires made { app ≤ length (shown world.now).apps }
    ensures { (d : AppShown) → OnOk result (out.new ≡ out.old ++ app_line app (slice_index_or (shown world.now).apps (app - 1) d)) }
{
    push_app_line(
        alloc,
        out,
        app as u64,
        world.app_phase(app),
        world.app_sent(app),
        world.app_got(app),
        world.app_error(app),
    )
}

/// A line for each app, by number.
fn push_apps(alloc: Global, out: &mut Blob, world: &World) -> Result<(), NoMemory>
    ensures { OnOk result (out.new ≡ out.old ++ numbered app_line 1 (shown world.now).apps) }
{
    for before in 0..world.app_count() {
        push_app(alloc, out, world, before + 1)?;
    }
    Ok(())
}

/// A line for a dial of a world.
fn push_dial(alloc: Global, out: &mut Blob, world: &World, dial: u64) -> Result<(), NoMemory>
    requires first { 1 ≤ dial }
    requires drawn { dial ≤ length (shown world.now).dials }
    ensures { (d : DialShown) → OnOk result (out.new ≡ out.old ++ dial_line dial (slice_index_or (shown world.now).dials (dial - 1) d)) }
{
    let place = Place {
        dial,
        link: world.dial_link(dial),
        app: world.dial_app(dial),
    };
    push_dial_line(
        alloc,
        out,
        place,
        world.dial_phase(dial),
        world.dial_sent(dial),
        world.dial_got(dial),
    )
}

/// A line for each dial, by number.
fn push_dials(alloc: Global, out: &mut Blob, world: &World) -> Result<(), NoMemory>
    ensures { OnOk result (out.new ≡ out.old ++ numbered dial_line 1 (shown world.now).dials) }
{
    for before in 0..world.dial_count() {
        push_dial(alloc, out, world, before + 1)?;
    }
    Ok(())
}

/// The report of a world after a script of which this many events were idle: how many agents, clients, apps
/// and dials there are, a line for each app and each dial, the sizes of the tables, and whether all is quiet
/// and closed.
pub fn report(alloc: Global, world: &World, idle: u64) -> Result<Blob, NoMemory>
    ensures { IfOk result (λ text. text ≡ report_of (shown world.now) idle) }
{
    let mut out = Blob::new(alloc);
    let counts = Counts {
        agents: world.agent_count(),
        clients: world.client_count(),
        apps: world.app_count(),
        dials: world.dial_count(),
    };
    push_head(alloc, &mut out, counts, idle)?;
    push_apps(alloc, &mut out, world)?;
    push_dials(alloc, &mut out, world)?;
    let tables = world.tables();
    push_tables(
        alloc,
        &mut out,
        tables.awaited as u64,
        tables.held as u64,
        tables.dials as u64,
        tables.connections as u64,
    )?;
    push_end(&mut out, world.quiet(), world.closed())?;
    Ok(out)
}

#[cfg(test)]
mod tests {
    use super::*;
    use kn_route::Strategies;
    use std::process::Abort;
    use std::test::Fail;

    #[test]
    fn reports_an_empty_world(rt: HostRuntime) -> Result<(), Fail> {
        let strategies = Strategies::read(rt.alloc(), "default")?;
        let text = report(rt.alloc(), &World::new(rt.alloc(), strategies), 0)
            .ok()
            .ok_or("no memory")?;
        let expected =
            "agents 0 clients 0 apps 0 dials 0 idle 0\ntables awaited 0 held 0 dials 0 connections 0\nquiet yes closed yes\n";
        assert_eq!(rt; text.as_slice(), expected.as_bytes());
        Ok(())
    }

    const APPS: [(AppPhase, &str, &str, &str, &str); 6] = [
        (
            AppPhase::Dialling,
            "",
            "",
            "",
            "app 1 dialling sent 0 got 0 -\n",
        ),
        (
            AppPhase::Open,
            "hello",
            "ok",
            "",
            "app 1 open sent 5 got 2 6f6b\n",
        ),
        (
            AppPhase::Closing,
            "a",
            "",
            "",
            "app 1 closing sent 1 got 0 -\n",
        ),
        (
            AppPhase::Lingering,
            "",
            "~",
            "",
            "app 1 lingering sent 0 got 1 7e\n",
        ),
        (
            AppPhase::Refused,
            "",
            "",
            "no agent available",
            "app 1 refused sent 0 got 0 - error no agent available\n",
        ),
        (
            AppPhase::Ended,
            "",
            "0123456789abcdefg",
            "",
            "app 1 ended sent 0 got 17 30313233343536373839616263646566\n",
        ),
    ];

    fn reports_each(
        rt: &impl Abort,
        alloc: Global,
        cases: &[(AppPhase, &str, &str, &str, &str)],
    ) -> Result<(), Fail> {
        for (phase, sent, got, error, expected) in cases {
            let mut out = Blob::new(alloc);
            push_app_line(
                alloc,
                &mut out,
                1,
                *phase,
                sent.as_bytes(),
                got.as_bytes(),
                error,
            )
            .ok()
            .ok_or("no memory")?;
            assert!(rt; out.as_slice() == expected.as_bytes(), "{expected:?}");
        }
        Ok(())
    }

    #[test]
    fn reports_apps(rt: HostRuntime) -> Result<(), Fail> {
        reports_each(&rt, rt.alloc(), &APPS)
    }

    const DIALS: [(DialPhase, &str); 5] = [
        (
            DialPhase::Asked,
            "dial 2 link 1 app 3 asked sent 1 got 2 000f\n",
        ),
        (
            DialPhase::Dialling,
            "dial 2 link 1 app 3 dialling sent 1 got 2 000f\n",
        ),
        (
            DialPhase::Open,
            "dial 2 link 1 app 3 open sent 1 got 2 000f\n",
        ),
        (
            DialPhase::Lingering,
            "dial 2 link 1 app 3 lingering sent 1 got 2 000f\n",
        ),
        (
            DialPhase::Ended,
            "dial 2 link 1 app 3 ended sent 1 got 2 000f\n",
        ),
    ];

    fn reports_each_dial(
        rt: &impl Abort,
        alloc: Global,
        cases: &[(DialPhase, &str)],
    ) -> Result<(), Fail> {
        for (phase, expected) in cases {
            let mut out = Blob::new(alloc);
            let place = Place {
                dial: 2,
                link: 1,
                app: 3,
            };
            push_dial_line(alloc, &mut out, place, *phase, b"a", b"\x00\x0f")
                .ok()
                .ok_or("no memory")?;
            assert!(rt; out.as_slice() == expected.as_bytes(), "{expected:?}");
        }
        Ok(())
    }

    #[test]
    fn reports_dials(rt: HostRuntime) -> Result<(), Fail> {
        reports_each_dial(&rt, rt.alloc(), &DIALS)
    }
}
