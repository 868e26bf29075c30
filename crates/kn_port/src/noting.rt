//! The entries of calls, in room that the journal has made. A call that found no memory leaves none.
ghost use Rattle.std.specs.Prelude.{◌≡◌, ◌+◌, ◌++◌};
ghost use Rattle.kn_port.specs.Journal as spec;
ghost use Rattle.kn_port.specs.Memory.{IsGiven, IsTaken, Accepts, Dials, drawn_accepted, drawn_dialled};

use crate::journal::Journal;
use crate::{Accepted, DialEnd, Dialled, Entry, Gate, Listened, PortGot, Took, Waited, Woken};
use kn_io::{Blob, Text};
use std::alloc::Global;

pub(crate) fn listen(journal: &mut Journal, gate: Gate, address: Text, answer: Listened)
    requires room { journal.old.spare ≡ 2 }
    ensures { journal.new ≡ record journal.old { entries = journal.old.entries ++ spec.listen_entries gate address answer; spare = 0 } }
{
    match answer {
        Listened::Done => journal.add(Entry::Listen {
            gate,
            address,
            answer: Listened::Done,
        }),
        Listened::Failed => journal.add(Entry::Listen {
            gate,
            address,
            answer: Listened::Failed,
        }),
        Listened::NoMemory => journal.give_room_up(),
    }
}

pub(crate) fn wait(journal: &mut Journal, ready: Woken, answer: Waited)
    requires room { journal.old.spare ≡ 2 }
    ensures { journal.new ≡ record journal.old { entries = journal.old.entries ++ spec.wait_entries ready answer; spare = 0 } }
{
    match answer {
        Waited::Ready => journal.add(Entry::Wait {
            ready,
            answer: Waited::Ready,
        }),
        Waited::Failed => journal.add(Entry::Wait {
            ready,
            answer: Waited::Failed,
        }),
        Waited::NoMemory => journal.give_room_up(),
    }
}

pub(crate) fn accept(journal: &mut Journal, gate: Gate, answer: Accepted)
    requires room { journal.old.spare ≡ 2 }
    requires number { Accepts answer (journal.old.drawn + 1) }
    ensures { journal.new ≡ record { entries = journal.old.entries ++ spec.accept_entries gate answer; drawn = drawn_accepted answer journal.old.drawn; spare = 0 } }
{
    match answer {
        Accepted::Conn(number) => journal.open(Entry::Accept {
            gate,
            answer: Accepted::Conn(number),
        }),
        Accepted::NotYet => journal.add(Entry::Accept {
            gate,
            answer: Accepted::NotYet,
        }),
        Accepted::Failed => journal.add(Entry::Accept {
            gate,
            answer: Accepted::Failed,
        }),
        Accepted::NoMemory => journal.give_room_up(),
    }
}

pub(crate) fn dial(journal: &mut Journal, address: Text, answer: Dialled)
    requires room { journal.old.spare ≡ 2 }
    requires number { Dials answer (journal.old.drawn + 1) }
    ensures { journal.new ≡ record { entries = journal.old.entries ++ spec.dial_entries address answer; drawn = drawn_dialled answer journal.old.drawn; spare = 0 } }
{
    match answer {
        Dialled::Conn(number) => journal.open(Entry::Dial {
            address,
            answer: Dialled::Conn(number),
        }),
        Dialled::Failed => journal.add(Entry::Dial {
            address,
            answer: Dialled::Failed,
        }),
        Dialled::NoMemory => journal.give_room_up(),
    }
}

pub(crate) fn dial_end(journal: &mut Journal, conn: u64, answer: DialEnd)
    requires room { journal.old.spare ≡ 2 }
    ensures { journal.new ≡ record journal.old { entries = journal.old.entries ++ spec.dial_end_entries conn answer; spare = 0 } }
{
    match answer {
        DialEnd::Up => journal.add(Entry::DialEnd {
            conn,
            answer: DialEnd::Up,
        }),
        DialEnd::NotYet => journal.add(Entry::DialEnd {
            conn,
            answer: DialEnd::NotYet,
        }),
        DialEnd::Failed => journal.add(Entry::DialEnd {
            conn,
            answer: DialEnd::Failed,
        }),
        DialEnd::NoMemory => journal.give_room_up(),
    }
}

/// The room is as the read left it.
pub(crate) fn read(
    alloc: Global,
    journal: &mut Journal,
    conn: u64,
    room: &[u8],
    given: Blob,
    answer: PortGot,
)
    requires room { journal.old.spare ≡ 2 }
    requires given { IsGiven answer room.now given }
    ensures { journal.new ≡ record journal.old { entries = journal.old.entries ++ spec.read_entries conn room.now answer; spare = 0 } }
{
    match answer {
        PortGot::Bytes(count) => journal.add(Entry::Read {
            conn,
            room: room.len(),
            bytes: given,
            answer: PortGot::Bytes(count),
        }),
        PortGot::NotYet => journal.add(Entry::Read {
            conn,
            room: room.len(),
            bytes: Blob::new(alloc),
            answer: PortGot::NotYet,
        }),
        PortGot::End => journal.add(Entry::Read {
            conn,
            room: room.len(),
            bytes: Blob::new(alloc),
            answer: PortGot::End,
        }),
        PortGot::Failed => journal.add(Entry::Read {
            conn,
            room: room.len(),
            bytes: Blob::new(alloc),
            answer: PortGot::Failed,
        }),
        PortGot::NoMemory => journal.give_room_up(),
    }
}

pub(crate) fn write(
    alloc: Global,
    journal: &mut Journal,
    conn: u64,
    bytes: &[u8],
    taken: Blob,
    answer: Took,
)
    requires room { journal.old.spare ≡ 2 }
    requires taken { IsTaken answer bytes.now taken }
    ensures { journal.new ≡ record journal.old { entries = journal.old.entries ++ spec.write_entries conn bytes.now answer; spare = 0 } }
{
    match answer {
        Took::Bytes(count) => journal.add(Entry::Write {
            conn,
            given: bytes.len(),
            bytes: taken,
            answer: Took::Bytes(count),
        }),
        Took::NotYet => journal.add(Entry::Write {
            conn,
            given: bytes.len(),
            bytes: Blob::new(alloc),
            answer: Took::NotYet,
        }),
        Took::Failed => journal.add(Entry::Write {
            conn,
            given: bytes.len(),
            bytes: Blob::new(alloc),
            answer: Took::Failed,
        }),
        Took::NoMemory => journal.give_room_up(),
    }
}
