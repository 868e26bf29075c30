ghost use Rattle.std.specs.Prelude.{◌≡◌, ◌≤◌, length, take, OnOk, OnErr};
ghost use Rattle.kn_port.specs.Memory as spec;

use crate::inbox::Inbox;
use crate::{DialEnd, PortGot, Took};
use kn_io::NoMemory;
use std::alloc::Global;

/// How far a connection has come.
#[derive(Clone, Copy, Debug, PartialEq, Eq)]
pub(crate) enum Dial {
    Begun,
    Up,
    Refused,
}

/// A connection in memory: what the ticks so far left for it.
#[derive(Drop)]
pub(crate) struct MemLine {
    pub(crate) inbox: Inbox,
    pub(crate) ended: bool,
    pub(crate) read_fails: bool,
    pub(crate) write_fails: bool,
    pub(crate) room: usize,
    pub(crate) dial: Dial,
}

impl MemLine {
    /// A connection of which no tick spoke. Takes no memory.
    pub(crate) fn new(alloc: Global, dial: Dial) -> MemLine
        ensures { result ≡ spec.new_line dial }
    {
        MemLine {
            inbox: Inbox::new(alloc),
            ended: false,
            read_fails: false,
            write_fails: false,
            room: 0,
            dial,
        }
    }

    /// Bytes come. An `Err` changes nothing.
    pub(crate) fn come(&mut self, bytes: &[u8]) -> Result<(), NoMemory>
        ensures ok { OnOk result (self.new ≡ spec.line_given bytes.now self.old) }
        ensures err { OnErr result (self.new ≡ self.old) }
    {
        self.inbox.append(bytes)
    }

    /// What a read into this much room answers.
    pub(crate) fn read_answer(&self, room: usize) -> PortGot
        ensures { result ≡ spec.line_read self.now room }
    {
        if self.read_fails {
            return PortGot::Failed;
        }
        let held = self.inbox.rest().len();
        if 0 < held {
            return PortGot::Bytes(room.min(held));
        }
        if self.ended {
            PortGot::End
        } else {
            PortGot::NotYet
        }
    }

    /// What a write of this many bytes answers.
    pub(crate) fn write_answer(&self, given: usize) -> Took
        ensures { result ≡ spec.line_write self.now given }
    {
        if self.write_fails {
            return Took::Failed;
        }
        if self.room == 0 {
            return Took::NotYet;
        }
        Took::Bytes(given.min(self.room))
    }

    /// What is said of its dial.
    pub(crate) fn dial_answer(&self) -> DialEnd
        ensures { result ≡ spec.dial_said self.now.dial }
    {
        match self.dial {
            Dial::Begun => DialEnd::NotYet,
            Dial::Up => DialEnd::Up,
            Dial::Refused => DialEnd::Failed,
        }
    }

    /// Gives what the answer says.
    pub(crate) fn give(&mut self, answer: PortGot, room: &mut [u8])
        requires { answer ≡ spec.line_read self.old (length room.old) }
        ensures after { self.new ≡ spec.line_after_read answer self.old }
        ensures bytes { spec.Gives answer self.old.inbox room.new }
    {
        match answer {
            PortGot::Bytes(count) => {
                copy_front(self.inbox.rest(), room, count);
                self.inbox.skip(count);
            }
            PortGot::NotYet => {}
            PortGot::End => {}
            PortGot::Failed => {}
            PortGot::NoMemory => {}
        }
    }

    /// Takes what the answer says.
    pub(crate) fn take(&mut self, answer: Took)
        ensures { self.new ≡ spec.line_after_write answer self.old }
    {
        match answer {
            Took::Bytes(count) => self.room = self.room.saturating_sub(count),
            Took::NotYet => {}
            Took::Failed => {}
            Took::NoMemory => {}
        }
    }

    /// It takes so many more bytes.
    pub(crate) fn widen(&mut self, more: usize)
        ensures { self.new ≡ spec.line_roomier more self.old }
    {
        self.room = self.room.saturating_add(more);
    }

    /// Its dial is up, unless it was up or refused.
    pub(crate) fn rise(&mut self)
        ensures { self.new ≡ spec.line_up self.old }
    {
        self.dial = match self.dial {
            Dial::Begun => Dial::Up,
            Dial::Up => Dial::Up,
            Dial::Refused => Dial::Refused,
        };
    }

    /// Its dial is refused, unless it was up or refused.
    pub(crate) fn refuse(&mut self)
        ensures { self.new ≡ spec.line_refused self.old }
    {
        self.dial = match self.dial {
            Dial::Begun => Dial::Refused,
            Dial::Up => Dial::Up,
            Dial::Refused => Dial::Refused,
        };
    }
}

/// Copies the first `count` bytes to the front of the room.
fn copy_front(bytes: &[u8], room: &mut [u8], count: usize)
    requires some { count ≤ length bytes.now }
    requires fits { count ≤ length room.old }
    ensures { take count room.new ≡ take count bytes.now }
{
    room[..count].copy_from_slice(&bytes[..count]);
}
