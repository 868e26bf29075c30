use crate::{AppPhase, DialPhase, Pipe, Seen, Tables, World, WorldEvent, dials_go_where_picked};
use kn_io::{NoMemory, Text};
use kn_route::Strategies;
use std::alloc::Global;
use std::process::Abort;
use std::test::Fail;

fn event(alloc: Global, letter: u8) -> Result<WorldEvent, NoMemory> {
    match letter {
        b'A' => Ok(WorldEvent::Agent {
            identifiers: Text::new(alloc),
        }),
        b'C' => Ok(WorldEvent::Client),
        b'a' => Ok(WorldEvent::App {
            client: 1,
            address: Text::of(alloc, "web:80")?,
        }),
        b'u' => Ok(WorldEvent::Up { dial: 1 }),
        _ => Ok(WorldEvent::Pass { rounds: 64 }),
    }
}

fn events(alloc: Global, letters: &[u8]) -> Result<Vec<WorldEvent>, NoMemory> {
    let mut events = Vec::new(alloc);
    for letter in letters {
        events.push(event(alloc, *letter)?)?;
    }
    Ok(events)
}

fn run_all(
    rt: &impl Abort,
    alloc: Global,
    world: &mut World,
    events: &[WorldEvent],
) -> Result<(), NoMemory> {
    let idle = world.run(alloc, events)?;
    assert_eq!(rt; idle, 1);
    Ok(())
}

fn step(rt: &impl Abort, alloc: Global, world: &mut World) -> Result<(), NoMemory> {
    let pipe = Pipe::AgentDown(1);
    let seen = world.apply(alloc, &WorldEvent::Step { pipe })?;
    assert_eq!(rt; seen, Seen::Moved);
    Ok(())
}

fn expect_counts(rt: &impl Abort, world: &World) {
    assert_eq!(rt; world.agent_count(), 1);
    assert_eq!(rt; world.client_count(), 1);
}

fn expect_app(rt: &impl Abort, world: &World) {
    assert_eq!(rt; world.app_count(), 1);
    assert_eq!(rt; world.app_phase(1), AppPhase::Open);
    assert_eq!(rt; world.app_error(1), "");
}

fn expect_app_bytes(rt: &impl Abort, world: &World) {
    assert_eq!(rt; world.app_count(), 1);
    assert_eq!(rt; world.app_sent(1).len(), 0);
    assert_eq!(rt; world.app_got(1).len(), 0);
}

fn expect_dial(rt: &impl Abort, world: &World) {
    assert_eq!(rt; world.dial_count(), 1);
    assert_eq!(rt; world.dial_phase(1), DialPhase::Open);
    assert_eq!(rt; world.dial_link(1), 1);
    assert_eq!(rt; world.dial_app(1), 1);
}

fn expect_dial_bytes(rt: &impl Abort, world: &World) {
    assert_eq!(rt; world.dial_count(), 1);
    assert_eq!(rt; world.dial_sent(1).len(), 0);
    assert_eq!(rt; world.dial_got(1).len(), 0);
}

fn expect_tables(rt: &impl Abort, world: &World) {
    let tables = Tables {
        awaited: 0,
        held: 1,
        dials: 0,
        connections: 1,
    };
    assert_eq!(rt; world.tables(), tables);
    assert!(rt; world.quiet());
    assert!(rt; !world.closed());
}

fn world_after(rt: &impl Abort, alloc: Global, letters: &[u8]) -> Result<World, Fail> {
    let events = events(alloc, letters)?;
    let mut world = World::new(alloc, Strategies::read(alloc, "default")?);
    run_all(rt, alloc, &mut world, events.as_slice())?;
    step(rt, alloc, &mut world)?;
    Ok(world)
}

#[test]
fn a_tunnel_opens(rt: HostRuntime) -> Result<(), Fail> {
    let world = world_after(&rt, rt.alloc(), b"ACapuup")?;
    expect_counts(&rt, &world);
    expect_app(&rt, &world);
    expect_app_bytes(&rt, &world);
    expect_dial(&rt, &world);
    expect_dial_bytes(&rt, &world);
    expect_tables(&rt, &world);
    dials_go_where_picked();
    Ok(())
}
