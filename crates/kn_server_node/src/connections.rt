ghost use Rattle.std.specs.Prelude.{◌≡◌, ◌≤◌, ℕ, nat_eq, [], length, true, false, Some, None, MatchOption, OnOk, IfOk, IsTrue};
ghost use Rattle.std.specs.List.{list_any};
ghost use Rattle.kn_h2_state.specs.declared.moves.Move.{Move};
ghost use Rattle.kn_connect.specs.Replies.{IsReplyStatus};
ghost use Rattle.kn_connect.specs.Answers.{IsGiven};
ghost use Rattle.kn_ends.specs.Carriers.{on_inlet, after_read, taken_from, finish_stream, reset_stream, with_end, with_reset, fed_with, without_events};
ghost use Rattle.kn_rising.specs.Members.{at, change, inserted, without, none};
ghost use Rattle.kn_server_node.specs.Doors as door;
ghost use Rattle.kn_server_node.specs.Ends as spec;
ghost use Rattle.kn_server_node.specs.Noting.{is_in, has_front};

use crate::at::{
    accept_at, begin_door_at, close_at, drop_early_at, feed_at, feed_head_at, give_at,
    keep_early_at, lose_at, note_end_at, note_reset_at, read_at, refuse_at, refuse_door_at,
    reset_at, take_at, take_events_at, took_at, write_at,
};
use crate::end::End;
use crate::notes::{Notes, no_notes, note, note_due};
use kn_connect::{ConnectAnswer, ConnectError};
use kn_ends::Who;
use kn_h2_state::Events;
use kn_hpack::Headers;
use kn_io::{Blob, NoMemory};
use kn_packet::Packet;
use kn_rising::Rising;
use std::alloc::Global;
use std::marker::Model;

/// The connections of the server by number. Contracts see these alone. Beside them are kept the numbers of those that
/// may have something to handle, and of those that may have something to write, or are over. After want of memory
/// there are none.
#[derive(Drop)]
pub struct Connections {
    ends: Rising<End>,
    notes: Notes,
}

impl Model for Connections {
    ghost use Rattle.kn_rising.specs.Members.{Members};
    ghost use Rattle.kn_server_node.specs.declared.end.End.{End};
    ghost use Rattle.kn_server_node.specs.Noting.{AreNoted};

    ghost Value = { Members End };

    ghost view = { λ c. c.ends };

    ghost invariant = { λ c. AreNoted c.ends c.notes };
}

impl Connections {
    /// None. Takes no memory.
    pub fn new(alloc: Global) -> Connections
        ensures { result ≡ none }
    {
        Connections {
            ends: Rising::new(alloc),
            notes: no_notes(alloc),
        }
    }

    pub fn get(&self, conn: u64) -> Option<&End>
        ensures { MatchOption result (at self.now conn ≡ None) (λ x. at self.now conn ≡ Some x.now) }
    {
        self.ends.get(conn)
    }

    /// The numbers, which rise.
    pub fn numbers(&self) -> &[u64]
        ensures numbers { result.now ≡ self.now.numbers }
        ensures others { (c : ℕ) → list_any (nat_eq c) result.now ≡ false → at self.now c ≡ None }
    {
        self.ends.numbers()
    }

    /// What is true of them, for a caller's proof. It does nothing.
    pub fn holds(&self)
        ensures { length self.now.items ≡ length self.now.numbers }
    {
        self.ends.holds();
    }

    /// A packet waits to be sent on a stream, or comes to a door.
    pub fn give(
        &mut self,
        alloc: Global,
        conn: u64,
        stream: u32,
        packet: &Packet,
    ) -> Result<(), NoMemory>
        ensures { OnOk result (self.new ≡ change self.old conn (spec.given stream packet.now)) }
    {
        note_due(&mut self.notes, conn)?;
        match give_at(&mut self.ends, alloc, conn, stream, packet) {
            Ok(()) => Ok(()),
            Err(error) => {
                self.ends = Rising::new(alloc);
                Err(error)
            }
        }
    }

    /// Nothing more of a stream is handled, and it ends with the status. A door is closed.
    pub fn close(
        &mut self,
        alloc: Global,
        conn: u64,
        stream: u32,
        status: u32,
    ) -> Result<(), NoMemory>
        ensures { OnOk result (self.new ≡ change self.old conn (spec.closed status stream)) }
    {
        note(&mut self.notes, conn)?;
        match close_at(&mut self.ends, alloc, conn, stream, status) {
            Ok(()) => Ok(()),
            Err(error) => {
                self.ends = Rising::new(alloc);
                Err(error)
            }
        }
    }

    /// Text of a stream is read.
    pub fn read(&mut self, alloc: Global, conn: u64, stream: u32) -> Result<(), NoMemory>
        ensures { OnOk result (self.new ≡ change self.old conn (spec.on_carrier (after_read stream))) }
    {
        note(&mut self.notes, conn)?;
        match read_at(&mut self.ends, alloc, conn, stream) {
            Ok(()) => Ok(()),
            Err(error) => {
                self.ends = Rising::new(alloc);
                Err(error)
            }
        }
    }

    /// The message that is whole is taken from a stream, and the text behind it read.
    pub fn take(&mut self, alloc: Global, conn: u64, stream: u32) -> Result<(), NoMemory>
        ensures { OnOk result (self.new ≡ change self.old conn (spec.on_carrier (taken_from stream))) }
    {
        note(&mut self.notes, conn)?;
        match take_at(&mut self.ends, alloc, conn, stream) {
            Ok(()) => Ok(()),
            Err(error) => {
                self.ends = Rising::new(alloc);
                Err(error)
            }
        }
    }

    /// The peer's half of a stream ended.
    pub fn note_end(&mut self, alloc: Global, conn: u64, stream: u32) -> Result<(), NoMemory>
        ensures { OnOk result (self.new ≡ change self.old conn (spec.on_carrier (on_inlet stream with_end))) }
    {
        note(&mut self.notes, conn)?;
        note_end_at(&mut self.ends, alloc, conn, stream);
        Ok(())
    }

    /// The peer reset a stream: what was under way is dropped.
    pub fn note_reset(&mut self, alloc: Global, conn: u64, stream: u32) -> Result<(), NoMemory>
        ensures { OnOk result (self.new ≡ change self.old conn (spec.on_carrier (on_inlet stream with_reset))) }
    {
        note(&mut self.notes, conn)?;
        note_reset_at(&mut self.ends, alloc, conn, stream);
        Ok(())
    }

    /// A stream has somebody from now on, and is answered.
    pub fn accept(
        &mut self,
        alloc: Global,
        conn: u64,
        stream: u32,
        who: Who,
        headers: &Headers,
    ) -> Result<(), NoMemory>
        ensures { OnOk result (self.new ≡ change self.old conn (spec.on_carrier (spec.accepted stream who headers.now))) }
    {
        note(&mut self.notes, conn)?;
        match accept_at(&mut self.ends, alloc, conn, stream, who, headers) {
            Ok(()) => Ok(()),
            Err(error) => {
                self.ends = Rising::new(alloc);
                Err(error)
            }
        }
    }

    /// A call is refused: its stream ends with these fields.
    pub fn refuse(
        &mut self,
        alloc: Global,
        conn: u64,
        stream: u32,
        headers: Headers,
    ) -> Result<(), NoMemory>
        ensures { OnOk result (self.new ≡ change self.old conn (spec.on_carrier (finish_stream stream headers))) }
    {
        note(&mut self.notes, conn)?;
        refuse_at(&mut self.ends, alloc, conn, stream, headers);
        Ok(())
    }

    /// This end gives up a stream.
    pub fn reset(
        &mut self,
        alloc: Global,
        conn: u64,
        stream: u32,
        code: u32,
    ) -> Result<(), NoMemory>
        ensures { OnOk result (self.new ≡ change self.old conn (spec.on_carrier (reset_stream stream code))) }
    {
        note(&mut self.notes, conn)?;
        match reset_at(&mut self.ends, alloc, conn, stream, code) {
            Ok(()) => Ok(()),
            Err(error) => {
                self.ends = Rising::new(alloc);
                Err(error)
            }
        }
    }

    /// The next bytes of the peer.
    pub fn feed(&mut self, alloc: Global, conn: u64, piece: &[u8]) -> Result<(), NoMemory>
        ensures { OnOk result (self.new ≡ change self.old conn (spec.on_carrier (fed_with piece.now))) }
    {
        note(&mut self.notes, conn)?;
        match feed_at(&mut self.ends, alloc, conn, piece) {
            Ok(()) => Ok(()),
            Err(error) => {
                self.ends = Rising::new(alloc);
                Err(error)
            }
        }
    }

    /// The connection was lost.
    pub fn lose(&mut self, alloc: Global, conn: u64) -> Result<(), NoMemory>
        ensures { OnOk result (self.new ≡ change self.old conn (spec.lost)) }
    {
        note(&mut self.notes, conn)?;
        lose_at(&mut self.ends, alloc, conn);
        Ok(())
    }

    /// The head of a door was whole: it is a front, and what follows the head is early.
    pub fn begin_door(
        &mut self,
        alloc: Global,
        conn: u64,
        front: u64,
        early: Blob,
    ) -> Result<(), NoMemory>
        ensures { OnOk result (self.new ≡ change self.old conn (spec.on_door (door.begun front early))) }
    {
        note(&mut self.notes, conn)?;
        begin_door_at(&mut self.ends, alloc, conn, front, early);
        Ok(())
    }

    /// A door's head is refused.
    pub fn refuse_door(&mut self, alloc: Global, conn: u64, status: u32) -> Result<(), NoMemory>
        requires { IsReplyStatus status }
        ensures { OnOk result (self.new ≡ change self.old conn (spec.on_door (door.refused status))) }
    {
        note(&mut self.notes, conn)?;
        match refuse_door_at(&mut self.ends, alloc, conn, status) {
            Ok(()) => Ok(()),
            Err(error) => {
                self.ends = Rising::new(alloc);
                Err(error)
            }
        }
    }

    /// Bytes come early at a door.
    pub fn keep_early(&mut self, alloc: Global, conn: u64, piece: &[u8]) -> Result<(), NoMemory>
        ensures { OnOk result (self.new ≡ change self.old conn (spec.on_door (door.with_early piece.now))) }
    {
        note(&mut self.notes, conn)?;
        match keep_early_at(&mut self.ends, alloc, conn, piece) {
            Ok(()) => Ok(()),
            Err(error) => {
                self.ends = Rising::new(alloc);
                Err(error)
            }
        }
    }

    /// The early bytes of a door are gone.
    pub fn drop_early(&mut self, alloc: Global, conn: u64) -> Result<(), NoMemory>
        ensures { OnOk result (self.new ≡ change self.old conn (spec.on_door door.without_early)) }
    {
        note(&mut self.notes, conn)?;
        drop_early_at(&mut self.ends, alloc, conn);
        Ok(())
    }

    /// A connection of this number begins. An `Err` changes nothing.
    pub fn insert(&mut self, conn: u64, end: End) -> Result<(), NoMemory>
        ensures { OnOk result (self.new ≡ inserted self.old conn end) }
    {
        note(&mut self.notes, conn)?;
        self.ends.insert(conn, end)?;
        self.ends.holds();
        Ok(())
    }

    /// The connection of a number is not kept any more.
    pub fn forget(&mut self, conn: u64) -> Result<(), NoMemory>
        ensures { OnOk result (self.new ≡ without self.old conn) }
    {
        note(&mut self.notes, conn)?;
        self.ends.remove(conn);
        self.ends.holds();
        Ok(())
    }

    /// So many bytes went to its socket.
    pub fn took(&mut self, conn: u64, count: usize) -> Result<(), NoMemory>
        requires { count ≤ length (spec.out (at self.old conn)) }
        ensures { OnOk result (self.new ≡ change self.old conn (spec.took count)) }
    {
        note(&mut self.notes, conn)?;
        took_at(&mut self.ends, conn, count);
        Ok(())
    }

    /// What the connection told is taken out.
    pub fn take_events(&mut self, alloc: Global, conn: u64) -> Result<Events, NoMemory>
        ensures told { IfOk result (λ events. events ≡ spec.events_in (at self.old conn)) }
        ensures left { OnOk result (self.new ≡ change self.old conn (spec.on_carrier without_events)) }
    {
        note(&mut self.notes, conn)?;
        Ok(take_events_at(&mut self.ends, alloc, conn))
    }

    /// What is due is written, while there is room.
    pub fn write(&mut self, alloc: Global, conn: u64) -> Result<(), NoMemory>
        ensures made { OnOk result (spec.FillsAt conn self.old self.new) }
        ensures filled { OnOk result ((m : Move) → spec.may_write (at self.new conn) m ≡ false) }
    {
        note(&mut self.notes, conn)?;
        match write_at(&mut self.ends, alloc, conn) {
            Ok(()) => Ok(()),
            Err(error) => {
                self.ends = Rising::new(alloc);
                Err(error)
            }
        }
    }

    /// The next bytes of the head of a door.
    pub fn feed_head(
        &mut self,
        alloc: Global,
        conn: u64,
        piece: &[u8],
    ) -> Result<ConnectAnswer, ConnectError>
        ensures { IsGiven result → spec.HearsHead conn piece.now (at self.old conn) self.old result self.new }
    {
        match note(&mut self.notes, conn) {
            Ok(()) => feed_head_at(&mut self.ends, alloc, conn, piece),
            Err(_error) => Err(ConnectError::NoMemory),
        }
    }

    // ---- who is noted

    /// All that have something to handle are among these.
    pub fn ready(&self) -> &[u64]
        ensures { (c s : ℕ) → has_front (at self.now c) s ≡ true → is_in c result.now ≡ true }
    {
        self.notes.ready.as_slice()
    }

    /// One that may have something to write, or is over. Where there is none, none has, and none is.
    pub fn next_due(&self) -> Option<u64>
        ensures written { result ≡ None → (c : ℕ) (m : Move) → spec.may_write (at self.now c) m ≡ false }
        ensures over { result ≡ None → (c : ℕ) → spec.is_over (at self.now c) ≡ false }
    {
        self.notes.due.last()
    }

    /// One that has nothing to handle is none that may have.
    pub fn rest(&mut self, conn: u64)
        requires { (s : ℕ) → has_front (at self.old conn) s ≡ false }
        ensures { self.new ≡ self.old }
    {
        self.notes.ready.remove(conn);
    }

    /// One that has nothing to write, and is not over, is not due.
    pub fn done(&mut self, conn: u64)
        requires written { (m : Move) → spec.may_write (at self.old conn) m ≡ false }
        requires over { spec.is_over (at self.old conn) ≡ false }
        ensures { self.new ≡ self.old }
    {
        self.notes.due.remove(conn);
    }
}
