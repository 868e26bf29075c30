//! What a connection writes at its own time, and the heads that its owner sends.

ghost use Rattle.std.specs.Prelude.{◌≡◌, ◌≢◌, ◌&&◌, not, None, Some, true, false, is_some, IfOk, IfErr, OnOk, OnErr};
ghost use Rattle.kn_h2_state.specs.declared.role.Role.TheVariants.{Client, Server};
ghost use Rattle.kn_h2_state.specs.declared.refusal.QueueRefusal.TheVariants as queues;
ghost use Rattle.kn_h2_state.specs.Streams.{on_open};
ghost use Rattle.kn_h2_state.specs.Rules.{is_client};
ghost use Rattle.kn_h2_state.specs.declared.refusal.BeginRefusal.TheVariants as begins;
ghost use Rattle.kn_h2_state.specs.declared.moves.Move.{Move};
ghost use Rattle.kn_h2_state.specs.Moves.{may, Reaches};
ghost use Rattle.kn_h2_state.specs.Calls.{Changes, next_number, begin_refusal, after_begin, takes_more, refusal, after_answer};

use crate::answers::answer;
use crate::conn::Conn;
use crate::fill::fill;
use crate::heads::begin;
use crate::ruin::ruin;
use crate::stream_calls::{takes_more, takes_more_at};
use kn_h2_state::{BeginRefusal, QueueRefusal, Role, is_open};
use kn_hpack::Headers;
use kn_io::NoMemory;
use std::alloc::Global;

impl Conn {
    /// Writes what is due while `out` has room: WINDOW_UPDATEs, queued bytes within the windows, and ends of
    /// streams. Streams with text take turns.
    pub fn fill(&mut self, alloc: Global) -> Result<(), NoMemory>
        ensures made { OnOk result ((self.new.cutter ≡ self.old.cutter) × Reaches self.old.state self.new.state) }
        ensures filled { OnOk result ((m : Move) → may self.new.state m ≡ false) }
        ensures failed { OnOk result (is_some self.old.state.failed ≡ true → self.new ≡ self.old) }
        ensures over { OnErr result (self.new.state.failed ≡ Some 2) }
    {
        match fill(&mut self.state, alloc, &mut self.turn, &mut self.due) {
            Ok(()) => Ok(()),
            Err(error) => {
                ruin(&mut self.state, alloc);
                self.due = true;
                Err(error)
            }
        }
    }

    /// Begins a stream with a request, and tells its number.
    pub fn begin(&mut self, alloc: Global, headers: &Headers) -> Result<u32, BeginRefusal>
        requires { self.old.state.role ≡ Client }
        ensures number { IfOk result (λ n. n ≡ next_number self.old.state) }
        ensures ok { OnOk result ((begin_refusal self.old.state ≡ None) × Changes self.old self.new (after_begin headers.now)) }
        ensures err { IfErr result (λ e. e ≢ begins.NoMemory → (begin_refusal self.old.state ≡ Some e) × (self.new ≡ self.old)) }
        ensures over { IfErr result (λ e. e ≡ begins.NoMemory → self.new.state.failed ≡ Some 2) }
    {
        self.due = true;
        match begin(&mut self.state, alloc, headers) {
            Ok(number) => Ok(number),
            Err(BeginRefusal::NoMemory) => {
                ruin(&mut self.state, alloc);
                Err(BeginRefusal::NoMemory)
            }
            Err(BeginRefusal::Gone { code }) => Err(BeginRefusal::Gone { code }),
            Err(BeginRefusal::Away) => Err(BeginRefusal::Away),
            Err(BeginRefusal::Many) => Err(BeginRefusal::Many),
            Err(BeginRefusal::Numbers) => Err(BeginRefusal::Numbers),
        }
    }

    /// Answers a request with the head of its response, once for each stream. The head counts as a reply
    /// frame: where too many wait, the connection fails, and the answer is still `Ok`.
    pub fn answer(
        &mut self,
        alloc: Global,
        stream: u32,
        headers: &Headers,
    ) -> Result<(), QueueRefusal>
        requires server { self.old.state.role ≡ Server }
        requires once { on_open self.old.state.streams stream (λ st. takes_more st && st.answered) ≡ false }
        ensures ok { OnOk result ((refusal takes_more self.old.state stream ≡ None) × Changes self.old self.new (after_answer stream headers.now)) }
        ensures err { IfErr result (λ e. e ≢ queues.NoMemory → (refusal takes_more self.old.state stream ≡ Some e) × (self.new ≡ self.old)) }
        ensures over { IfErr result (λ e. e ≡ queues.NoMemory → self.new.state.failed ≡ Some 2) }
    {
        self.due = true;
        match answer(&mut self.state, alloc, stream, headers) {
            Ok(()) => Ok(()),
            Err(QueueRefusal::NoMemory) => {
                ruin(&mut self.state, alloc);
                Err(QueueRefusal::NoMemory)
            }
            Err(QueueRefusal::Gone { code }) => Err(QueueRefusal::Gone { code }),
            Err(QueueRefusal::NoStream) => Err(QueueRefusal::NoStream),
            Err(QueueRefusal::Full { held }) => Err(QueueRefusal::Full { held }),
        }
    }

    /// Which end this is.
    pub fn role(&self) -> Role
        ensures { result ≡ self.now.state.role }
    {
        self.state.role
    }

    /// This end's half of the stream is open, and its end was not asked for: `queue` and `finish` are not
    /// refused for the stream's sake.
    pub fn takes_more(&self, stream: u32) -> bool
        ensures { result ≡ on_open self.now.state.streams stream takes_more }
    {
        takes_more_at(&self.state.streams, stream)
    }

    /// This end is a server whose half of the stream takes more, and the stream is not answered: `answer` comes
    /// before `queue`.
    pub fn awaits_answer(&self, stream: u32) -> bool
        ensures { result ≡ on_open self.now.state.streams stream (λ st. takes_more st && not (is_client self.now.state.role) && not st.answered) }
    {
        match self.state.streams.get(stream) {
            Some(stream) => {
                is_open(stream)
                    && takes_more(stream)
                    && !self.state.role.is_client()
                    && !stream.answered
            }
            None => false,
        }
    }
}
