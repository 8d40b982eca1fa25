//! The live connections.

ghost use Rattle.std.specs.Prelude.{◌≡◌, ◌<◌, ◌≤◌, ◌==◌, nat_lt, ◌+◌, ◌&&◌, [], ◌∷◌, ◌++◌, length, count_by};
ghost use Rattle.std.specs.Prelude.{option_copied, slice_get, if◌then◌else◌, Some, IfErr, IfOk, OnOk, OnErr};
ghost use Rattle.std.specs.Prelude.{OnSome};
ghost use Rattle.std.specs.List.{AllByRecursion};
ghost use Rattle.std.specs.Option.{option_copied_mut, option_map};
ghost use Rattle.std.specs.Borrow.{sem};

use crate::connection::Connection;
use crate::entries::Entries;
use qbase::errno::Errno;
use qbase::ids::{ChannelId, ConnectionId, ProcessNo};
use std::alloc::{AllocError, Global};
use std::marker::Model;

/// The greatest number of connections that may be live at a time, by this kernel's own choice.
pub const CONNECTION_LIMIT: usize = 1024;

/// The live connections: a map from id to connection. Contracts see the entries in rising id.
#[derive(Drop)]
pub struct Connections {
    entries: Entries<Connection>,
}

impl Model for Connections {
    ghost use Rattle.std.specs.Prelude.{◌≤◌, List, ℕ, length};
    ghost use Rattle.qtables.specs.declared.connection.Connection.{Connection};

    ghost Value = { List (ℕ × Connection) };

    ghost view = { λ a. a.entries };

    ghost invariant = { λ a. length a.entries ≤ 1024 };
}

impl Connections {
    ghost use Rattle.qtables.specs.Entries.{entry_at, without_entry, IsRising};
    ghost use Rattle.qtables.specs.Lending.{lends_connection};

    /// Makes an empty table of connections; takes no memory.
    pub fn new(alloc: Global) -> Connections
        ensures { result ≡ [] }
    {
        Connections {
            entries: Entries::new(alloc),
        }
    }

    /// Makes an empty table with room for `count` connections; error if the allocator refuses.
    pub fn with_capacity(alloc: Global, count: usize) -> Result<Connections, AllocError>
        ensures { IfOk result (λ connections. connections ≡ []) }
    {
        Ok(Connections {
            entries: Entries::with_capacity(alloc, count)?,
        })
    }

    /// Adds a connection, whose id must be greater than the ids of all live connections. On an error it
    /// returns the connection. The error is `Again` if 1,024 connections are live, and otherwise `NoMemory`
    /// if the allocator refuses.
    pub fn create(
        &mut self,
        number: ConnectionId,
        entry: Connection,
    ) -> Result<(), (Errno, Connection)>
        requires { AllByRecursion (λ e. e.0 < number) self.old }
        ensures ok { OnOk result (self.new ≡ self.old ++ (number, entry) ∷ []) }
        ensures room { OnOk result (length self.old < 1024) }
        ensures err { OnErr result (self.new ≡ self.old) }
        ensures error { IfErr result
            (λ e. e.0 ≡ (if nat_lt (length self.old) 1024 then Errno.NoMemory else Errno.Again)) }
        ensures returned { IfErr result (λ e. e.1 ≡ entry) }
    {
        self.entries.create(number.0, entry, CONNECTION_LIMIT)
    }

    /// Returns a connection; `None` if it isn't live.
    pub fn get(&self, id: ConnectionId) -> Option<&Connection>
        ensures { option_copied result ≡ entry_at self.now id }
    {
        self.entries.get(id.0)
    }

    /// Returns a connection, for writing; `None` if it isn't live.
    pub fn get_mut(&mut self, id: ConnectionId) -> Option<&mut Connection>
        ensures* writes_back { sem 𝓛 (lends_connection self.entry id result) }
        ensures value { option_copied_mut result ≡ entry_at self.old id }
    {
        self.entries.get_mut(id.0)
    }

    /// Removes a connection and returns it; `None` if it isn't live. Takes no memory.
    pub fn remove(&mut self, id: ConnectionId) -> Option<Connection>
        ensures value { result ≡ entry_at self.old id }
        ensures after { self.new ≡ without_entry self.old id }
        ensures fewer { OnSome result (length self.new + 1 ≡ length self.old) }
    {
        self.entries.remove(id.0)
    }

    /// Returns the number of live connections, at most 1,024.
    pub fn len(&self) -> usize
        ensures value { result ≡ length self.now }
        ensures fits { length self.now ≤ 1024 }
        ensures rising { IsRising self.now }
    {
        self.entries.len()
    }

    /// Returns the id of the connection at this place, counted from 0, of the live connections in rising id.
    pub fn id_at(&self, place: usize) -> ConnectionId
        requires { place < length self.now }
        ensures { option_map (λ e. e.0) (slice_get self.now place) ≡ Some result }
    {
        ConnectionId(self.entries.number_at(place))
    }

    /// Returns the connection at this place, counted from 0, of the live connections in rising id.
    pub fn at(&self, place: usize) -> &Connection
        requires { place < length self.now }
        ensures { option_map (λ e. e.1) (slice_get self.now place) ≡ Some result.now }
    {
        self.entries.at(place)
    }

    /// Returns whether no connection is live.
    pub fn is_empty(&self) -> bool
        ensures { result ≡ (length self.now == 0) }
    {
        self.len() == 0
    }

    /// Returns how many connections a process has to a channel.
    pub fn count(&self, process: ProcessNo, channel: ChannelId) -> usize
        ensures { result ≡ count_by (λ e. (e.1.process == process) && (e.1.channel == channel)) self.now }
    {
        let mut count = 0;
        for place in 0..self.entries.len() {
            let connection = self.entries.at(place);
            if connection.process == process && connection.channel == channel {
                count += 1;
            }
        }
        count
    }
}
