//! A node as its connections see it: bytes that come and bytes that go. Each call of a node stands in a function of
//! its own.

use kn_agent_node::AgentNode;
use kn_client_node::ClientNode;
use kn_io::NoMemory;
use kn_server_node::ServerNode;
use std::alloc::Global;

/// The bytes of the largest piece that a node takes.
pub const PIECE: usize = 16_384;

pub trait Side {
    /// What waits to be written on a connection.
    fn due(&self, conn: u64) -> &[u8];

    /// Bytes come on a connection, where they are wanted; whether they were.
    fn feed(&mut self, alloc: Global, conn: u64, piece: &[u8]) -> Result<bool, NoMemory>;

    /// So many bytes of what waits for a connection are written, where so many wait.
    fn pass_on(&mut self, alloc: Global, conn: u64, count: usize) -> Result<(), NoMemory>;

    /// Takes out a connection that was stirred; whether there was one.
    fn calm(&mut self) -> bool;
}

impl Side for ServerNode {
    fn due(&self, conn: u64) -> &[u8] {
        self.out(conn)
    }

    fn feed(&mut self, alloc: Global, conn: u64, piece: &[u8]) -> Result<bool, NoMemory> {
        if self.wants(conn) && piece.len() >= 1 && piece.len() <= 16_384 {
            self.bytes(alloc, conn, piece)?;
            Ok(true)
        } else {
            Ok(false)
        }
    }

    fn pass_on(&mut self, alloc: Global, conn: u64, count: usize) -> Result<(), NoMemory> {
        if conn <= self.top() && count <= self.out(conn).len() {
            self.took(alloc, conn, count)
        } else {
            Ok(())
        }
    }

    fn calm(&mut self) -> bool {
        self.next_stirred().is_some()
    }
}

impl Side for AgentNode {
    fn due(&self, conn: u64) -> &[u8] {
        self.out(conn)
    }

    fn feed(&mut self, alloc: Global, conn: u64, piece: &[u8]) -> Result<bool, NoMemory> {
        if self.wants(conn) && piece.len() > 0 && piece.len() <= 16_384 {
            self.bytes(alloc, conn, piece)?;
            Ok(true)
        } else {
            Ok(false)
        }
    }

    fn pass_on(&mut self, alloc: Global, conn: u64, count: usize) -> Result<(), NoMemory> {
        if count <= self.out(conn).len() {
            self.took(alloc, conn, count)
        } else {
            Ok(())
        }
    }

    fn calm(&mut self) -> bool {
        self.next_stirred().is_some()
    }
}

impl Side for ClientNode {
    fn due(&self, conn: u64) -> &[u8] {
        self.out(conn)
    }

    fn feed(&mut self, alloc: Global, conn: u64, piece: &[u8]) -> Result<bool, NoMemory> {
        if self.wants(conn) && piece.len() > 0 && piece.len() <= 16_384 {
            self.bytes(alloc, conn, piece)?;
            Ok(true)
        } else {
            Ok(false)
        }
    }

    fn pass_on(&mut self, alloc: Global, conn: u64, count: usize) -> Result<(), NoMemory> {
        if count <= self.out(conn).len() {
            self.took(alloc, conn, count)
        } else {
            Ok(())
        }
    }

    fn calm(&mut self) -> bool {
        self.next_stirred().is_some()
    }
}

/// The first bytes of these, so many at most.
pub fn front(bytes: &[u8], size: usize) -> &[u8] {
    if size < bytes.len() {
        &bytes[..size]
    } else {
        bytes
    }
}

/// One piece of what waits at a connection of one node comes to a connection of another; whether one did.
pub fn carry<F: Side, T: Side>(
    alloc: Global,
    from: &mut F,
    from_conn: u64,
    to: &mut T,
    to_conn: u64,
) -> Result<bool, NoMemory> {
    let piece = front(from.due(from_conn), PIECE);
    let count = piece.len();
    if to.feed(alloc, to_conn, piece)? {
        from.pass_on(alloc, from_conn, count)?;
        Ok(true)
    } else {
        Ok(false)
    }
}

/// Takes out all connections that were stirred.
pub fn calm_all<S: Side>(node: &mut S) {
    for _ in 0..u64::MAX {
        if !node.calm() {
            return;
        }
    }
}
