use super::*;
use kn_io::NoMemory;
use std::test::Fail;

fn await_dial(table: &mut Awaited, entry: AwaitedEntry) -> Result<(), NoMemory> {
    if table.find_dial(entry.dial).is_none()
        && table.find_random(entry.front, entry.random).is_none()
    {
        table.insert(entry)
    } else {
        Ok(())
    }
}

fn hold(table: &mut Held, entry: HeldEntry) -> Result<(), NoMemory> {
    if table.find_dial(entry.dial).is_none() && table.find(entry.link, entry.connect_id).is_none() {
        table.insert(entry)
    } else {
        Ok(())
    }
}

fn close(table: &mut Held, link: u64, connect_id: i64, keep_front: bool) {
    if table.find(link, connect_id).is_some() {
        table.close(link, connect_id, keep_front);
    }
}

const AWAITED: [AwaitedEntry; 3] = [
    AwaitedEntry {
        dial: 5,
        front: 1,
        link: 2,
        random: 7,
    },
    AwaitedEntry {
        dial: 3,
        front: 2,
        link: 1,
        random: 7,
    },
    AwaitedEntry {
        dial: 4,
        front: 1,
        link: 1,
        random: -8,
    },
];

const HELD: [HeldEntry; 3] = [
    HeldEntry {
        dial: 5,
        link: 1,
        connect_id: 2,
        front: Some(1),
        state: HeldState::Open,
    },
    HeldEntry {
        dial: 3,
        link: 2,
        connect_id: 1,
        front: Some(2),
        state: HeldState::Open,
    },
    HeldEntry {
        dial: 4,
        link: 1,
        connect_id: -1,
        front: Some(1),
        state: HeldState::Open,
    },
];

fn fill_awaited(table: &mut Awaited, entries: &[AwaitedEntry]) -> Result<(), NoMemory> {
    for entry in entries {
        await_dial(table, *entry)?;
    }
    Ok(())
}

fn fill_held(table: &mut Held, entries: &[HeldEntry]) -> Result<(), NoMemory> {
    for entry in entries {
        hold(table, *entry)?;
    }
    Ok(())
}

#[test]
fn awaited_dials_are_found_by_each_key(rt: HostRuntime) -> Result<(), Fail> {
    let mut table = Awaited::new(rt.alloc());
    fill_awaited(&mut table, &AWAITED)?;
    assert_eq!(rt; table.len(), 3);
    assert_eq!(rt; table.find_dial(3).map(|e| e.link), Some(1));
    assert_eq!(rt; table.find_random(1, 7).map(|e| e.dial), Some(5));
    assert_eq!(rt; table.find_random(2, -8).map(|e| e.dial), None);
    assert_eq!(rt; table.first_of_front(1).map(|e| e.dial), Some(4));
    assert_eq!(rt; table.first_of_link(1).map(|e| e.dial), Some(3));
    assert_eq!(rt; table.count_of_front(1), 2);
    assert_eq!(rt; table.remove(4).map(|e| e.random), Some(-8));
    assert_eq!(rt; table.remove(4).map(|e| e.random), None);
    assert_eq!(rt; table.first_of_front(1).map(|e| e.dial), Some(5));
    assert_eq!(rt; table.count_of_front(1), 1);
    Ok(())
}

#[test]
fn tunnels_are_found_by_each_key(rt: HostRuntime) -> Result<(), Fail> {
    let mut table = Held::new(rt.alloc());
    fill_held(&mut table, &HELD)?;
    assert_eq!(rt; table.len(), 3);
    assert_eq!(rt; table.find(2, 1).map(|e| e.dial), Some(3));
    assert_eq!(rt; table.find(1, 1).map(|e| e.dial), None);
    assert_eq!(rt; table.find_dial(4).map(|e| e.connect_id), Some(-1));
    assert_eq!(rt; table.first_of_front(1).map(|e| e.dial), Some(4));
    assert_eq!(rt; table.first_of_link(1).map(|e| e.connect_id), Some(-1));
    assert_eq!(rt; table.count_of_front(1), 2);
    close(&mut table, 1, -1, false);
    assert_eq!(rt; table.find(1, -1).map(|e| e.front), Some(None));
    assert_eq!(rt; table.first_of_front(1).map(|e| e.dial), Some(5));
    close(&mut table, 1, 2, true);
    assert_eq!(rt;
        table.find_dial(5).map(|e| e.state),
        Some(HeldState::Closing)
    );
    assert_eq!(rt; table.count_of_front(1), 1);
    assert_eq!(rt; table.remove(1, 2).map(|e| e.dial), Some(5));
    assert_eq!(rt; table.remove(1, 2).map(|e| e.dial), None);
    assert_eq!(rt; table.len(), 2);
    Ok(())
}
