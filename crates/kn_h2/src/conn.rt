ghost use Rattle.std.specs.Prelude.{◌≡◌, ◌≢◌, ◌≤◌, ◌&&◌, [], ◌∷◌, ◌++◌, length, min, not, true, false, is_some, MatchOption, IfOk, IfErr, OnOk, OnErr, Some, None};
ghost use Rattle.std.specs.List.{AllByRecursion};
ghost use Rattle.kn_frames.specs.Frames.{IsWithinLimits};
ghost use Rattle.kn_frames.specs.Readers.{frames_in};
ghost use Rattle.kn_h2_state.specs.Streams.{on_open};
ghost use Rattle.kn_h2_state.specs.Rules.{is_client};
ghost use Rattle.kn_h2_state.specs.Feeding.{after_piece};
ghost use Rattle.kn_h2_state.specs.Calls.{Changes, fresh, after_take, text_of, takes_more, refusal, queue_of, unsent, queue_refusal, after_queue, after_finish, after_reset, after_took, is_closed};
ghost use Rattle.kn_h2_state.specs.Holding.{Holds};

use crate::feeding::feed;
use crate::ruin::ruin;
use crate::text::is_open_at;
use crate::{stream_calls, taking};
use kn_frames::Cutter;
use kn_h2_state::{Events, H2Event, QueueRefusal, Role, State};
use kn_hpack::Headers;
use kn_io::NoMemory;
use std::alloc::Global;
use std::marker::Model;
use std::mem;

/// One end of an HTTP/2 connection (RFC 9113). It has no socket: the peer's bytes are fed to it, and the
/// bytes in `out` go to the peer. Contracts see what cuts the peer's bytes into frames, and the state.
///
/// After want of memory it has failed with INTERNAL_ERROR, but for `queue`, which changes nothing then.
#[derive(Drop)]
pub struct Conn {
    pub(crate) cutter: Cutter,
    pub(crate) state: State,
    /// The stream at which the next `fill` begins its search.
    pub(crate) turn: u32,
    /// Something may be due to be written. Where nothing is, `fill` looks at no stream.
    pub(crate) due: bool,
}

impl Model for Conn {
    ghost use Rattle.kn_h2_state.specs.Feeding.{Connection};

    ghost Value = { Connection };

    ghost use Rattle.kn_h2_state.specs.Holding.{Holds};
    ghost use Rattle.kn_h2.specs.Connections.{connection, NotesDue};

    ghost view = { λ c. connection c.cutter c.state };

    ghost invariant = { λ c. Holds c.state × NotesDue c.due c.state };
}

impl Conn {
    /// A connection before the first byte. The frames with which this end begins wait in `out`.
    pub fn new(alloc: Global, role: Role) -> Result<Conn, NoMemory>
        ensures { IfOk result (λ c. c ≡ fresh role) }
    {
        let state = State::new(alloc, role)?;
        Ok(Conn {
            cutter: Cutter::new(alloc, !role.is_client()),
            state,
            turn: 0,
            due: true,
        })
    }

    /// Reads the next bytes of the peer. Where the connection has failed nothing is read.
    pub fn feed(&mut self, alloc: Global, piece: &[u8]) -> Result<(), NoMemory>
        ensures after { OnOk result (self.new ≡ after_piece self.old piece.now) }
        ensures limits { OnOk result (is_some self.old.state.failed ≡ false → AllByRecursion IsWithinLimits (frames_in self.old.cutter piece.now)) }
        ensures over { OnErr result (self.new.state.failed ≡ Some 2) }
    {
        self.due = true;
        match feed(&mut self.cutter, &mut self.state, alloc, piece) {
            Ok(()) => Ok(()),
            Err(error) => {
                ruin(&mut self.state, alloc);
                Err(error)
            }
        }
    }

    /// The next event, in the order of the frames.
    pub fn next_event(&mut self) -> Option<H2Event>
        ensures { MatchOption result ((self.old.state.events ≡ []) × (self.new ≡ self.old))
            (λ event. Changes self.new self.old (λ s. record s { events = event ∷ s.events })) }
    {
        self.state.events.pop()
    }

    /// What was told, in the order of the frames, and none of it is left here. Takes no memory.
    pub fn take_events(&mut self, alloc: Global) -> Events
        ensures told { result ≡ self.old.state.events }
        ensures left { Changes self.old self.new (λ s. record s { events = [] }) }
    {
        mem::replace(&mut self.state.events, Events::new(alloc))
    }

    /// The text of a stream that came and was not taken.
    pub fn text(&self, stream: u32) -> &[u8]
        ensures { result.now ≡ text_of self.now.state stream }
    {
        match self.state.streams.get(stream) {
            Some(stream) => stream.text.as_slice(),
            None => &[],
        }
    }

    /// So many bytes of the stream's text were taken: the peer may send as many again, which `fill` tells it.
    pub fn take(&mut self, stream: u32, count: usize)
        requires { count ≤ length (text_of self.old.state stream) }
        ensures { Changes self.old self.new (after_take stream count) }
    {
        self.due = true;
        taking::take(&mut self.state, stream, count);
    }

    /// Bytes wait to be sent on a stream. An `Err` changes nothing. At a server the stream has to be
    /// answered before.
    pub fn queue(&mut self, stream: u32, bytes: &[u8]) -> Result<(), QueueRefusal>
        requires { on_open self.old.state.streams stream (λ st. takes_more st && not (is_client self.old.state.role) && not st.answered) ≡ false }
        ensures ok { OnOk result ((queue_refusal self.old.state stream ≡ None) × Changes self.old self.new (after_queue stream bytes.now)) }
        ensures err { IfErr result (λ e. e ≢ QueueRefusal.NoMemory → queue_refusal self.old.state stream ≡ Some e) }
        ensures kept { OnErr result (self.new ≡ self.old) }
    {
        self.due = true;
        stream_calls::queue(&mut self.state, stream, bytes)
    }

    /// As `queue`, for bytes that stand in two places.
    pub fn queue_two(&mut self, stream: u32, front: &[u8], rest: &[u8]) -> Result<(), QueueRefusal>
        requires { on_open self.old.state.streams stream (λ st. takes_more st && not (is_client self.old.state.role) && not st.answered) ≡ false }
        ensures ok { OnOk result ((queue_refusal self.old.state stream ≡ None) × Changes self.old self.new (after_queue stream (front.now ++ rest.now))) }
        ensures err { IfErr result (λ e. e ≢ QueueRefusal.NoMemory → queue_refusal self.old.state stream ≡ Some e) }
        ensures kept { OnErr result (self.new ≡ self.old) }
    {
        self.due = true;
        stream_calls::queue_two(&mut self.state, stream, front, rest)
    }

    /// This end's half of a stream is to end after what waits, at a server with these trailers. Takes no
    /// memory. An `Err` changes nothing.
    pub fn finish(&mut self, stream: u32, trailers: Headers) -> Result<(), QueueRefusal>
        requires { is_client self.old.state.role ≡ true → trailers ≡ [] }
        ensures ok { OnOk result ((refusal takes_more self.old.state stream ≡ None) × Changes self.old self.new (after_finish stream trailers)) }
        ensures err { IfErr result (λ e. (refusal takes_more self.old.state stream ≡ Some e) × (self.new ≡ self.old)) }
    {
        self.due = true;
        stream_calls::finish(&mut self.state, stream, trailers)
    }

    /// This end gives up a stream: what waits on it is dropped, and the peer is told.
    pub fn reset(&mut self, alloc: Global, stream: u32, code: u32) -> Result<(), QueueRefusal>
        ensures ok { OnOk result ((refusal (λ st. st.own_open) self.old.state stream ≡ None) × Changes self.old self.new (after_reset stream code)) }
        ensures err { IfErr result (λ e. e ≢ QueueRefusal.NoMemory → (refusal (λ st. st.own_open) self.old.state stream ≡ Some e) × (self.new ≡ self.old)) }
        ensures over { IfErr result (λ e. e ≡ QueueRefusal.NoMemory → self.new.state.failed ≡ Some 2) }
    {
        self.due = true;
        match stream_calls::reset(&mut self.state, stream, code) {
            Ok(()) => Ok(()),
            Err(QueueRefusal::NoMemory) => {
                ruin(&mut self.state, alloc);
                Err(QueueRefusal::NoMemory)
            }
            Err(QueueRefusal::Gone { code }) => Err(QueueRefusal::Gone { code }),
            Err(QueueRefusal::NoStream) => Err(QueueRefusal::NoStream),
            Err(QueueRefusal::Full { held }) => Err(QueueRefusal::Full { held }),
        }
    }

    /// How many bytes wait to be sent on a stream.
    pub fn queued(&self, stream: u32) -> usize
        ensures { result ≡ length (queue_of self.now.state stream) }
    {
        stream_calls::queued(&self.state.streams, stream)
    }

    /// How many bytes wait to be sent on all streams together. It stays at its type's end.
    pub fn unsent(&self) -> usize
        ensures { result ≡ min (unsent self.now.state.streams) 18446744073709551615 }
    {
        stream_calls::unsent(&self.state.streams)
    }

    /// How many bytes of a partial frame, or of a partial preface, were read.
    pub fn held(&self) -> usize
        ensures value { result ≡ length self.now.cutter.rest }
        ensures bound { result ≤ 16393 }
    {
        self.cutter.held()
    }

    /// The stream is closed: it was opened, and is not open (RFC 9113, section 5.1).
    #[tactic(auto, unfolding(kn_h2_state::specs::Calls::is_closed))]
    pub fn closed(&self, stream: u32) -> bool
        ensures { result ≡ is_closed self.now.state stream }
    {
        stream % 2 != 0 && stream <= self.state.opened && !is_open_at(&self.state.streams, stream)
    }

    /// What waits for the socket.
    pub fn out(&self) -> &[u8]
        ensures { result.now ≡ self.now.state.out.bytes }
    {
        self.state.out.as_slice()
    }

    /// So many bytes of `out` went to the peer. Moves none of the others.
    pub fn took(&mut self, count: usize)
        requires { count ≤ length self.old.state.out.bytes }
        ensures { Changes self.old self.new (after_took count) }
    {
        taking::took(&mut self.state, count);
    }

    /// The code with which the connection failed.
    pub fn over(&self) -> Option<u32>
        ensures { result ≡ self.now.state.failed }
    {
        self.state.failed
    }

    /// What is true of every connection, for a caller's proof. It does nothing.
    pub fn holds(&self)
        ensures { Holds self.now.state }
    {
        let _state = &self.state;
    }
}
