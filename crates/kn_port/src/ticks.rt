ghost use Rattle.std.specs.Prelude.{◌≡◌, ◌++◌, length, IfOk, OnOk, OnErr};
ghost use Rattle.std.specs.Option.{option_copied};
ghost use Rattle.kn_port.specs.Numbers.{first_of, rest_of};
ghost use Rattle.kn_port.specs.Memory as spec;

use crate::mem_net::MemNet;
use crate::{Ready, Tick, Waited, Woken};
use kn_io::NoMemory;
use std::alloc::Global;
use std::collections::VecDeque;
use std::marker::Model;

/// The ticks that are left, the next one in front. Contracts see the list.
#[derive(Drop)]
pub(crate) struct Ticks {
    inner: VecDeque<Tick>,
}

impl Model for Ticks {
    ghost use Rattle.std.specs.Prelude.{List};
    ghost use Rattle.kn_port.specs.declared.tick.Tick.{Tick};

    ghost Value = { List Tick };

    ghost view = { λ t. t.inner.items };
}

impl Ticks {
    /// These ticks. Takes no memory.
    pub(crate) fn new(ticks: Vec<Tick>) -> Ticks
        ensures { result ≡ ticks.items }
    {
        Ticks {
            inner: VecDeque::from(ticks),
        }
    }

    /// The next tick.
    pub(crate) fn first(&self) -> Option<&Tick>
        ensures { option_copied result ≡ first_of self.now }
    {
        self.inner.front()
    }

    /// The next tick is past.
    pub(crate) fn pass(&mut self)
        ensures { self.new ≡ rest_of self.old }
    {
        let _past = self.inner.pop_front();
    }
}

/// What a wait answers at this tick.
pub(crate) fn said(tick: Option<&Tick>) -> Waited
    ensures { result ≡ spec.wait_said (option_copied tick.entry) }
{
    match tick {
        Some(tick) => said_at(tick),
        None => Waited::Failed,
    }
}

fn said_at(tick: &Tick) -> Waited
    ensures { result ≡ spec.tick_said tick.now }
{
    match tick {
        Tick::Arrive(_) => Waited::Ready,
        Tick::Bytes { .. } => Waited::Ready,
        Tick::End(_) => Waited::Ready,
        Tick::Room { .. } => Waited::Ready,
        Tick::Up(_) => Waited::Ready,
        Tick::Refuse(_) => Waited::Ready,
        Tick::FailRead(_) => Waited::Ready,
        Tick::FailWrite(_) => Waited::Ready,
        Tick::FailAccept(_) => Waited::Ready,
        Tick::FailDial => Waited::Ready,
        Tick::FailWait => Waited::Failed,
    }
}

/// What a wait names at this tick.
pub(crate) fn names(alloc: Global, tick: Option<&Tick>) -> Result<Woken, NoMemory>
    ensures { IfOk result (λ named. named ≡ spec.wait_names (option_copied tick.entry)) }
{
    match tick {
        Some(tick) => names_at(alloc, tick),
        None => Ok(Woken::new(alloc)),
    }
}

fn names_at(alloc: Global, tick: &Tick) -> Result<Woken, NoMemory>
    ensures { IfOk result (λ named. named ≡ spec.tick_names tick.now) }
{
    let mut named = Woken::new(alloc);
    name(tick, &mut named)?;
    Ok(named)
}

fn name(tick: &Tick, ready: &mut Woken) -> Result<(), NoMemory>
    ensures ok { OnOk result (ready.new ≡ ready.old ++ spec.tick_names tick.now) }
    ensures err { OnErr result (ready.new ≡ ready.old) }
{
    match tick {
        Tick::Arrive(gate) => ready.add(Ready::Gate(*gate)),
        Tick::Bytes { conn, .. } => ready.add(Ready::Conn(*conn)),
        Tick::End(conn) => ready.add(Ready::Conn(*conn)),
        Tick::Room { conn, .. } => ready.add(Ready::Conn(*conn)),
        Tick::Up(conn) => ready.add(Ready::Conn(*conn)),
        Tick::Refuse(conn) => ready.add(Ready::Conn(*conn)),
        Tick::FailRead(conn) => ready.add(Ready::Conn(*conn)),
        Tick::FailWrite(conn) => ready.add(Ready::Conn(*conn)),
        Tick::FailAccept(gate) => ready.add(Ready::Gate(*gate)),
        Tick::FailDial => Ok(()),
        Tick::FailWait => Ok(()),
    }
}

/// The tick comes, and is named. An `Err` changes nothing.
pub(crate) fn come(net: &mut MemNet, tick: Option<&Tick>, ready: &mut Woken) -> Result<(), NoMemory>
    ensures net { OnOk result (net.new ≡ spec.net_waited (option_copied tick.entry) net.old) }
    ensures named { OnOk result (ready.new ≡ ready.old ++ spec.wait_names (option_copied tick.entry)) }
    ensures kept { OnErr result (net.new ≡ net.old) }
    ensures unnamed { OnErr result (ready.new ≡ ready.old) }
{
    match tick {
        Some(tick) => come_one(net, tick, ready),
        None => Ok(()),
    }
}

fn come_one(net: &mut MemNet, tick: &Tick, ready: &mut Woken) -> Result<(), NoMemory>
    ensures net { OnOk result (net.new ≡ spec.net_after tick.now net.old) }
    ensures named { OnOk result (ready.new ≡ ready.old ++ spec.tick_names tick.now) }
    ensures kept { OnErr result (net.new ≡ net.old) }
    ensures unnamed { OnErr result (ready.new ≡ ready.old) }
{
    let count = ready.as_slice().len();
    name(tick, ready)?;
    match net.tick(tick) {
        Ok(()) => Ok(()),
        Err(NoMemory) => {
            ready.cut(count);
            Err(NoMemory)
        }
    }
}
