//! The open channels.

ghost use Rattle.std.specs.Prelude.{◌≡◌, ◌<◌, ◌≤◌, ◌==◌, nat_lt, ◌+◌, [], ◌∷◌, ◌++◌, length, option_copied};
ghost use Rattle.std.specs.Prelude.{slice_get, if◌then◌else◌, Some, IfErr, IfOk, IfSome, OnOk, OnErr, OnSome};
ghost use Rattle.std.specs.List.{AllByRecursion};
ghost use Rattle.std.specs.Option.{option_copied_mut, option_map};
ghost use Rattle.std.specs.Borrow.{sem};

use crate::entries::Entries;
use qbase::errno::Errno;
use qbase::ids::ChannelId;
use std::alloc::{AllocError, Global};
use std::marker::Model;

/// The greatest number of channels that may be open at a time, by this kernel's own choice.
pub const CHANNEL_LIMIT: usize = 64;

/// The open channels: a map from a channel's id to the kernel's record of it. Contracts see the entries in
/// rising id.
#[derive(Drop)]
pub struct Channels<Record> {
    entries: Entries<Record>,
}

impl<Record> Model for Channels<Record> {
    ghost use Rattle.std.specs.Prelude.{◌≤◌, List, ℕ, length};
    ghost use Rattle.std.specs.Coded.{coded_ℕ, coded×, coded_list};

    ghost Value = { List (ℕ × Record) };

    ghost coded = { coded_list (coded× coded_ℕ Record.code) };

    ghost view = { λ a. a.entries };

    ghost invariant = { λ a. length a.entries ≤ 64 };
}

impl<Record: Drop> Channels<Record> {
    ghost use Rattle.qtables.specs.Entries.{entry_at, with_record, without_entry, IsRising};
    ghost use Rattle.qtables.specs.Lending.{lends_channel};

    /// Makes an empty table of channels; takes no memory.
    pub fn new(alloc: Global) -> Channels<Record>
        ensures { result ≡ [] }
    {
        Channels {
            entries: Entries::new(alloc),
        }
    }

    /// Makes an empty table with room for `count` channels; error if the allocator refuses.
    pub fn with_capacity(alloc: Global, count: usize) -> Result<Channels<Record>, AllocError>
        ensures { IfOk result (λ channels. channels ≡ []) }
    {
        Ok(Channels {
            entries: Entries::with_capacity(alloc, count)?,
        })
    }

    /// Adds a channel, whose id must be greater than the ids of all open channels. On an error it returns the
    /// record. The error is `Again` if 64 channels are open, and otherwise `NoMemory` if the allocator
    /// refuses.
    pub fn create(&mut self, number: ChannelId, entry: Record) -> Result<(), (Errno, Record)>
        requires { AllByRecursion (λ e. e.0 < number) self.old }
        ensures ok { OnOk result (self.new ≡ self.old ++ (number, entry) ∷ []) }
        ensures room { OnOk result (length self.old < 64) }
        ensures err { OnErr result (self.new ≡ self.old) }
        ensures error { IfErr result
            (λ e. e.0 ≡ (if nat_lt (length self.old) 64 then Errno.NoMemory else Errno.Again)) }
        ensures returned { IfErr result (λ e. e.1 ≡ entry) }
    {
        self.entries.create(number.0, entry, CHANNEL_LIMIT)
    }

    /// Returns the record of a channel; `None` if the channel isn't open.
    pub fn get(&self, id: ChannelId) -> Option<&Record>
        ensures { option_copied result ≡ entry_at self.now id }
    {
        self.entries.get(id.0)
    }

    /// Returns the record of a channel, for writing; `None` if the channel isn't open.
    pub fn get_mut(&mut self, id: ChannelId) -> Option<&mut Record>
        ensures* writes_back { sem 𝓛 (lends_channel Record.row self.entry id result) }
        ensures value { option_copied_mut result ≡ entry_at self.old id }

        // If nothing is written, nothing changes.
        ensures unwritten { IfSome result (λ channel. with_record self.old id channel.now ≡ self.old) }
    {
        self.entries.get_mut(id.0)
    }

    /// Removes a channel and returns its record; `None` if the channel isn't open. Takes no memory.
    pub fn remove(&mut self, id: ChannelId) -> Option<Record>
        ensures value { result ≡ entry_at self.old id }
        ensures after { self.new ≡ without_entry self.old id }
        ensures fewer { OnSome result (length self.new + 1 ≡ length self.old) }
    {
        self.entries.remove(id.0)
    }

    /// Returns the number of open channels, at most 64.
    pub fn len(&self) -> usize
        ensures value { result ≡ length self.now }
        ensures fits { length self.now ≤ 64 }
        ensures rising { IsRising self.now }
    {
        self.entries.len()
    }

    /// Returns the id of the channel at this place, counted from 0, of the open channels in rising id.
    pub fn id_at(&self, place: usize) -> ChannelId
        requires { place < length self.now }
        ensures { option_map (λ e. e.0) (slice_get self.now place) ≡ Some result }
    {
        ChannelId(self.entries.number_at(place))
    }

    /// Returns the record of the channel at this place, counted from 0, of the open channels in rising id.
    pub fn at(&self, place: usize) -> &Record
        requires { place < length self.now }
        ensures { option_map (λ e. e.1) (slice_get self.now place) ≡ Some result.now }
    {
        self.entries.at(place)
    }

    /// Returns whether no channel is open.
    pub fn is_empty(&self) -> bool
        ensures { result ≡ (length self.now == 0) }
    {
        self.len() == 0
    }
}
