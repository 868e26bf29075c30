ghost use Rattle.std.specs.Prelude.{◌≡◌, ◌+◌, ◌<◌, ◌≤◌, ◌^◌, ℕ, [], ◌∷◌, Some, None, IsSome, length, OnOk, OnErr, MatchOption, if◌then◌else◌};
ghost use Rattle.std.specs.Option.{IsSomeAnd};
ghost use Rattle.std.specs.BTreeMap.{is_at};
ghost use Rattle.std.specs.Map.{set_value};
ghost use Rattle.std.specs.Ordering.{nat_cmp};
ghost use Rattle.kn_tables.specs.Indexed.{at_number};
ghost use Rattle.kn_tables.specs.Lists.{first_where};
ghost use Rattle.kn_edge_core.specs.AgentTables.{is_connection, connection_at, with_connection, without_connection, connection_changed, turned, with_more, with_fewer};

use crate::connection::{Connection, DestState};
use kn_io::NoMemory;
use std::alloc::Global;
use std::collections::BTreeMap;
use std::marker::Model;

/// The connections of an agent. Contracts see the list of them by rising connectID. Each call takes a time that
/// is logarithmic in the number of connections.
#[derive(Drop)]
pub struct Connections {
    by_id: BTreeMap<u64, Connection>,
}

impl Model for Connections {
    ghost use Rattle.std.specs.Prelude.{List};
    ghost use Rattle.kn_edge_core.specs.declared.connection.Connection.{Connection};

    ghost Value = { List Connection };

    ghost use Rattle.kn_edge_core.specs.Keeping.{connection_rows, ConnectionsAreKept};

    ghost view = { connection_rows };

    ghost invariant = { ConnectionsAreKept };
}

// Writes a connection in the place of the one under its number.
fn put(by_id: &mut BTreeMap<u64, Connection>, number: u64, connection: Connection)
    requires { IsSome (at_number by_id.old.entries number) }
    ensures { by_id.new.entries ≡ set_value (is_at (nat_cmp number)) by_id.old.entries connection }
{
    if let Some(place) = by_id.get_mut(&number) {
        *place = connection;
    }
}

impl Connections {
    /// No connection. Takes no memory.
    pub fn new(alloc: Global) -> Connections
        ensures { result ≡ [] }
    {
        Connections {
            by_id: BTreeMap::new(alloc),
        }
    }

    /// Adds a connection of a new number. An `Err` changes nothing.
    pub fn insert(&mut self, connection: Connection) -> Result<(), NoMemory>
        requires { first_where (is_connection connection.connect_id) self.old ≡ None }
        ensures ok { OnOk result (self.new ≡ with_connection connection self.old) }
        ensures err { OnErr result (self.new ≡ self.old) }
    {
        self.by_id.insert(connection.connect_id, connection)?;
        Ok(())
    }

    /// The connection of a number.
    pub fn find_number(&self, number: u64) -> Option<Connection>
        ensures { result ≡ first_where (is_connection number) self.now }
    {
        self.by_id.get(&number).copied()
    }

    /// The connection of a connectID, as packets have it.
    pub fn find(&self, connect_id: &i64) -> Option<Connection>
        ensures { result ≡ connection_at connect_id.now self.now }
    {
        if *connect_id < 0 {
            None
        } else {
            self.find_number(*connect_id as u64)
        }
    }

    /// A connection is to be closed once all is written. Takes no memory.
    pub fn linger(&mut self, number: u64)
        requires { IsSome (first_where (is_connection number) self.old) }
        ensures { self.new ≡ connection_changed number (turned DestState.Lingering) self.old }
    {
        if let Some(connection) = self.find_number(number) {
            put(
                &mut self.by_id,
                number,
                Connection {
                    state: DestState::Lingering,
                    ..connection
                },
            );
        }
    }

    /// So many bytes more are to be written. Takes no memory.
    pub fn add_unwritten(&mut self, number: u64, count: usize)
        requires { IsSomeAnd (first_where (is_connection number) self.old) (λ c. c.unwritten + count < 2 ^ 64) }
        ensures { self.new ≡ connection_changed number (with_more count) self.old }
    {
        if let Some(connection) = self.find_number(number) {
            put(
                &mut self.by_id,
                number,
                Connection {
                    unwritten: connection.unwritten + count,
                    ..connection
                },
            );
        }
    }

    /// So many bytes were written. Takes no memory.
    pub fn take_unwritten(&mut self, number: u64, count: usize)
        requires { IsSomeAnd (first_where (is_connection number) self.old) (λ c. count ≤ c.unwritten) }
        ensures { self.new ≡ connection_changed number (with_fewer count) self.old }
    {
        if let Some(connection) = self.find_number(number) {
            put(
                &mut self.by_id,
                number,
                Connection {
                    unwritten: connection.unwritten - count,
                    ..connection
                },
            );
        }
    }

    /// Takes the connection of a number out. Takes no memory.
    pub fn remove(&mut self, number: u64)
        ensures { self.new ≡ without_connection number self.old }
    {
        self.by_id.remove(&number);
    }

    /// Takes the connection of the least number out. Takes no memory.
    pub fn take_first(&mut self) -> Option<Connection>
        ensures first { MatchOption result (self.old ≡ []) (λ c. self.old ≡ c ∷ self.new) }
        ensures rest { MatchOption result (self.new ≡ []) (λ c. self.old ≡ c ∷ self.new) }
    {
        match self.by_id.pop_first() {
            Some((_, connection)) => Some(connection),
            None => None,
        }
    }

    /// How many connections there are.
    pub fn len(&self) -> usize
        ensures { result ≡ length self.now }
    {
        self.by_id.len()
    }
}
