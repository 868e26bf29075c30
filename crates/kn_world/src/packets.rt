ghost use Rattle.std.specs.Prelude.{◌≡◌, ◌==◌, length, [], ◌∷◌, ◌++◌, OnOk, OnErr};
ghost use Rattle.kn_world.specs.Numbers.{first_of, rest_of};

use kn_io::NoMemory;
use kn_packet::Packet;
use std::alloc::Global;
use std::collections::VecDeque;
use std::marker::Model;

/// Packets in flight, the first to be handled in front. Contracts see it as the list.
#[derive(Drop)]
pub struct Packets {
    inner: VecDeque<Packet>,
}

impl Model for Packets {
    ghost use Rattle.std.specs.Prelude.{List};
    ghost use Rattle.kn_packet.specs.declared.packet.Packet.{Packet};

    ghost Value = { List Packet };

    ghost view = { λ q. q.inner.items };
}

impl Packets {
    /// No packet. Takes no memory.
    pub fn new(alloc: Global) -> Packets
        ensures { result ≡ [] }
    {
        Packets {
            inner: VecDeque::new(alloc),
        }
    }

    pub fn len(&self) -> usize
        ensures { result ≡ length self.now }
    {
        self.inner.len()
    }

    pub fn is_empty(&self) -> bool
        ensures { result ≡ (length self.now == 0) }
    {
        self.inner.is_empty()
    }

    /// Puts a packet behind the others.
    pub fn push(&mut self, packet: Packet) -> Result<(), NoMemory>
        ensures ok { OnOk result (self.new ≡ self.old ++ packet ∷ []) }
        ensures err { OnErr result (self.new ≡ self.old) }
    {
        self.inner.push_back(packet)?;
        Ok(())
    }

    /// Takes the first packet.
    pub fn pop(&mut self) -> Option<Packet>
        ensures first { result ≡ first_of self.old }
        ensures rest { self.new ≡ rest_of self.old }
    {
        self.inner.pop_front()
    }
}
