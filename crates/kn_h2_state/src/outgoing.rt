ghost use Rattle.std.specs.Prelude.{◌≡◌, ◌<◌, ◌≤◌, ◌+◌, ◌-◌, ◌++◌, length, drop, replicate, OnOk, OnErr};
ghost use Rattle.kn_h2_state.specs.Outgoing.{put, taken, nothing_out, reply_bytes, reply_part, count_true};
ghost use Rattle.kn_h2_state.specs.Runs.{marks};

use crate::byte_queue::ByteQueue;
use crate::run::Run;
use kn_io::NoMemory;
use std::alloc::Global;
use std::collections::VecDeque;
use std::marker::Model;

/// What waits for the socket, and which of it is of reply frames. Contracts see the bytes, and beside
/// each whether it is of a reply frame.
#[derive(Drop)]
pub struct Outgoing {
    bytes: ByteQueue,
    /// The bytes again, as runs of one kind.
    runs: VecDeque<Run>,
    reply_count: usize,
}

impl Model for Outgoing {
    ghost use Rattle.std.specs.Prelude.{◌≡◌, length};
    ghost use Rattle.kn_h2_state.specs.Outgoing.{Out, count_true};

    ghost Value = { Out };

    ghost use Rattle.kn_h2_state.specs.Runs.{IsOutgoing, marks};

    ghost view = { λ o. record { bytes = o.bytes; replies = marks o.runs.items } };

    ghost invariant = { λ o. IsOutgoing o.bytes o.runs.items o.reply_count };
}

/// How many of so many bytes are of reply frames, where all are or none is.
fn reply_part(reply: bool, count: usize) -> usize
    ensures { result ≡ reply_part reply count }
{
    if reply { count } else { 0 }
}

/// Takes the first run, or no more than this many bytes of it, and tells what it took.
fn take_run(runs: &mut VecDeque<Run>, count: usize) -> Run
    requires count { 0 < count }
    requires run { 0 < length runs.old.items }
    ensures count { result.length ≤ count }
    ensures front { marks runs.old.items ≡ replicate result.length result.reply ++ marks runs.new.items }
    ensures less { length runs.new.items + (count - result.length) < length runs.old.items + count }
{
    match runs.pop_front() {
        None => Run {
            reply: false,
            length: 0,
        },
        Some(run) => {
            if run.length <= count {
                return run;
            }
            runs.push_front_reserved(Run {
                reply: run.reply,
                length: run.length - count,
            });
            Run {
                reply: run.reply,
                length: count,
            }
        }
    }
}

/// Takes the runs of the first bytes, and tells how many of these are of reply frames.
fn take_runs(runs: &mut VecDeque<Run>, count: usize) -> usize
    requires { count ≤ length (marks runs.old.items) }
    ensures rest { marks runs.new.items ≡ drop count (marks runs.old.items) }
    ensures counted { count_true (marks runs.old.items) ≡ result + count_true (marks runs.new.items) }
{
    let mut left = count;
    let mut replies = 0;
    while left > 0 && !runs.is_empty() {
        let run = take_run(runs, left);
        left -= run.length;
        replies += reply_part(run.reply, run.length);
    }
    replies
}

impl Outgoing {
    /// Nothing waits. Takes no memory.
    pub fn new(alloc: Global) -> Outgoing
        ensures { result ≡ nothing_out }
    {
        Outgoing {
            bytes: ByteQueue::new(alloc),
            runs: VecDeque::new(alloc),
            reply_count: 0,
        }
    }

    pub fn len(&self) -> usize
        ensures { result ≡ length self.now.bytes }
    {
        self.bytes.len()
    }

    pub fn as_slice(&self) -> &[u8]
        ensures { result.now ≡ self.now.bytes }
    {
        self.bytes.as_slice()
    }

    /// Puts bytes at the end that are all of reply frames, or none of them is. An `Err` changes nothing.
    pub fn put(&mut self, reply: bool, bytes: &[u8]) -> Result<(), NoMemory>
        ensures ok { OnOk result (self.new ≡ put self.old reply bytes.now) }
        ensures err { OnErr result (self.new ≡ self.old) }
    {
        self.runs.reserve(1)?;
        let before = self.bytes.len();
        self.bytes.append(bytes)?;
        let length = self.bytes.len() - before;
        self.runs.push_back_reserved(Run { reply, length });
        self.reply_count += reply_part(reply, length);
        Ok(())
    }

    /// Takes the first bytes away, and moves none.
    pub fn took(&mut self, count: usize)
        requires { count ≤ length self.old.bytes }
        ensures { self.new ≡ taken self.old count }
    {
        self.reply_count -= take_runs(&mut self.runs, count);
        self.bytes.advance(count);
    }

    /// How many bytes of reply frames wait. Takes the same time however many.
    pub fn reply_bytes(&self) -> usize
        ensures { result ≡ reply_bytes self.now }
    {
        self.reply_count
    }
}
