//! A map from numbers to records, which the tables of channels and of connections use.

ghost use Rattle.std.specs.Prelude.{◌≡◌, ◌<◌, ◌≤◌, nat_lt, ◌+◌, [], ◌∷◌, ◌++◌, length, slice_get};
ghost use Rattle.std.specs.Prelude.{option_copied, if◌then◌else◌, IfErr, IfOk, IfSome, IfNone, OnOk, OnErr};
ghost use Rattle.std.specs.Prelude.{OnSome, None, Some};
ghost use Rattle.std.specs.List.{AllByRecursion};
ghost use Rattle.std.specs.Option.{option_copied_mut, option_map};
ghost use Rattle.std.specs.Borrow.{sem};
ghost use Rattle.qtables.specs.Entries.{entry_at, with_record, without_entry, IsRising};

use qbase::errno::Errno;
use slab::Slab;
use std::alloc::{AllocError, Global};
use std::marker::Model;

/// A map from numbers to records. A record stays in one slot, together with its number, until it is removed.
/// The index has the numbers in rising order, each with the key of its slot. A slot is found only by its
/// number, so an old number never leads to a slot that is used again.
#[derive(Drop)]
pub struct Entries<Record> {
    slots: Slab<(u64, Record)>,
    index: Vec<(u64, usize)>,
}

impl<Record> Model for Entries<Record> {
    ghost use Rattle.std.specs.Prelude.{List, ℕ};
    ghost use Rattle.std.specs.Coded.{coded_ℕ, coded×, coded_list};
    ghost use Rattle.qtables.specs.Slots.{entries_at, IsIndexed};

    ghost Value = { List (ℕ × Record) };

    ghost coded = { coded_list (coded× coded_ℕ Record.code) };

    ghost view = { λ a. entries_at a.slots a.index.items };

    ghost invariant = { λ a. IsIndexed a.slots a.index.items };
}

/// Returns the place of a number in an index; `None` if the index doesn't have the number.
fn place_of(index: &[(u64, usize)], number: u64) -> Option<usize>
    requires { IsRising index.now }
    ensures there { IfSome result (λ place. option_map (λ e. e.0) (slice_get index.now place) ≡ Some number) }
    ensures absent { IfNone result (entry_at index.now number ≡ None) }
{
    index.binary_search_by_key(&number, |entry| entry.0).ok()
}

/// Returns the key of a number in an index; `None` if the index doesn't have the number.
fn key_of(index: &[(u64, usize)], number: u64) -> Option<usize>
    requires { IsRising index.now }
    ensures { result ≡ entry_at index.now number }
{
    let place = place_of(index, number)?;
    Some(index[place].1)
}

impl<Record: Drop> Entries<Record> {
    ghost use Rattle.qtables.specs.Lending.{lends_entry};

    /// Makes an empty map; takes no memory.
    pub fn new(alloc: Global) -> Entries<Record>
        ensures { result ≡ [] }
    {
        Entries {
            slots: Slab::new(alloc),
            index: Vec::new(alloc),
        }
    }

    /// Makes an empty map with room for `count` entries; error if the allocator refuses.
    pub fn with_capacity(alloc: Global, count: usize) -> Result<Entries<Record>, AllocError>
        ensures { IfOk result (λ entries. entries ≡ []) }
    {
        Ok(Entries {
            slots: Slab::with_capacity(alloc, count)?,
            index: Vec::with_capacity(alloc, count)?,
        })
    }

    /// Adds an entry, whose number must be greater than all others. On an error it returns the record. The
    /// error is `Again` if there are `limit` entries, and otherwise `NoMemory` if the allocator refuses.
    pub fn create(
        &mut self,
        number: u64,
        entry: Record,
        limit: usize,
    ) -> Result<(), (Errno, Record)>
        requires after_all { AllByRecursion (λ e. e.0 < number) self.old }
        requires within { length self.old ≤ limit }
        ensures ok { OnOk result (self.new ≡ self.old ++ (number, entry) ∷ []) }
        ensures room { OnOk result (length self.old < limit) }
        ensures err { OnErr result (self.new ≡ self.old) }
        ensures error { IfErr result
            (λ e. e.0 ≡ (if nat_lt (length self.old) limit then Errno.NoMemory else Errno.Again)) }
        ensures returned { IfErr result (λ e. e.1 ≡ entry) }
    {
        if self.index.len() >= limit {
            return Err((Errno::Again, entry));
        }
        if self.slots.reserve(1).is_err() || self.index.reserve(1).is_err() {
            return Err((Errno::NoMemory, entry));
        }
        let key = self.slots.insert_reserved((number, entry));
        self.index.push_reserved((number, key));
        Ok(())
    }

    /// Returns the record of a number; `None` if there is none.
    pub fn get(&self, number: u64) -> Option<&Record>
        ensures { option_copied result ≡ entry_at self.now number }
    {
        let key = key_of(&self.index, number)?;
        Some(&self.slots[key].1)
    }

    /// Returns the record of a number, for writing; `None` if there is none. The number itself can't be
    /// written.
    pub fn get_mut(&mut self, number: u64) -> Option<&mut Record>
        ensures* writes_back { sem 𝓛 (lends_entry Record.row self.entry number result) }
        ensures value { option_copied_mut result ≡ entry_at self.old number }
        ensures unwritten { IfSome result (λ there. with_record self.old number there.now ≡ self.old) }
    {
        let key = key_of(&self.index, number)?;
        Some(&mut self.slots[key].1)
    }

    /// Removes the entry of a number and returns its record; `None` if there is none. The index closes the
    /// gap, and no other record moves.
    pub fn remove(&mut self, number: u64) -> Option<Record>
        ensures value { result ≡ entry_at self.old number }
        ensures after { self.new ≡ without_entry self.old number }
        ensures fewer { OnSome result (length self.new + 1 ≡ length self.old) }
        ensures shorter { length self.new ≤ length self.old }
    {
        let place = place_of(&self.index, number)?;
        let (_, key) = self.index.remove(place);
        let (_, record) = self.slots.remove(key);
        Some(record)
    }

    /// Returns the number of entries.
    pub fn len(&self) -> usize
        ensures value { result ≡ length self.now }
        ensures rising { IsRising self.now }
    {
        self.index.len()
    }

    /// Returns the number at this place, counted from 0, of the entries in rising number.
    pub fn number_at(&self, place: usize) -> u64
        requires { place < length self.now }
        ensures { option_map (λ e. e.0) (slice_get self.now place) ≡ Some result }
    {
        self.index[place].0
    }

    /// Returns the record at this place, counted from 0, of the entries in rising number.
    pub fn at(&self, place: usize) -> &Record
        requires { place < length self.now }
        ensures { option_map (λ e. e.1) (slice_get self.now place) ≡ Some result.now }
    {
        &self.slots[self.index[place].1].1
    }
}
