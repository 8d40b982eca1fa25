//! The queue of one channel.

ghost use Rattle.std.specs.Prelude.{◌≡◌, ◌==◌, ◌+◌, ◌<◌, ◌≤◌, [], ◌∷◌, ◌++◌, length, count_by, IsOk, OnOk};
ghost use Rattle.std.specs.Prelude.{OnErr, IfErr, IfSome, IfNone, IsSome, IsFalse, is_some, option_copied};
ghost use Rattle.std.specs.Prelude.{IfOk};
ghost use Rattle.std.specs.List.{AllByRecursion};
ghost use Rattle.qbase.specs.declared.errno.Errno.TheVariants.{NoMemory};
ghost use Rattle.qqueue.specs.Best.{best_of, without_item, with_item_priority, item_of_number, is_pulse};
ghost use Rattle.qqueue.specs.Contents.{IsRising};
ghost use Rattle.qqueue.specs.Kept.{IsKept};
ghost use Rattle.qqueue.specs.Rings.{places_of, items_at, item_of, pulses_of};

use crate::item::{Item, Kind};
use crate::level_rings::LevelRings;
use crate::links::key_of;
use crate::order::in_order;
use qbase::errno::Errno;
use qbase::priority::Priority;
use std::alloc::{AllocError, Global};
use std::marker::Model;

/// The messages and pulses that were sent to one channel and not yet received, in the order in which they
/// were sent. Contracts see the items, and the room that is reserved for more, but not how they are kept.
#[derive(Debug, Drop)]
pub struct Queue {
    lists: LevelRings,
    // The number of items that are pulses.
    pulses: usize,
}

impl Model for Queue {
    ghost use Rattle.std.specs.Prelude.{◌≡◌};
    ghost use Rattle.qqueue.specs.Contents.{Contents};
    ghost use Rattle.qqueue.specs.Kept.{IsKept};
    ghost use Rattle.qqueue.specs.Rings.{places_of, items_at, pulses_of};

    ghost Value = { Contents };

    ghost view = { λ q. record { items = items_at (places_of q.lists.nodes); room = q.lists.room } };

    ghost invariant = { λ q. IsKept q.lists × (q.pulses ≡ pulses_of (items_at (places_of q.lists.nodes))) };
}

/// Removes the item under this key, updates the count of pulses, and returns the item.
fn take_out(lists: &mut LevelRings, pulses: &mut usize, key: usize) -> Item
    requires kept { IsKept lists.old }
    requires there { IsSome (item_of lists.old.nodes key) }
    requires counted { pulses.old ≡ pulses_of (items_at (places_of lists.old.nodes)) }
    ensures item { item_of lists.old.nodes key ≡ Some result }
    ensures rest { items_at (places_of lists.new.nodes) ≡ without_item result.number
        (items_at (places_of lists.old.nodes)) }
    ensures kept { IsKept lists.new }
    ensures room { lists.old.room ≤ lists.new.room }
    ensures counted { pulses.new ≡ pulses_of (items_at (places_of lists.new.nodes)) }
{
    let item = lists.take_out(key);
    if item.what.is_pulse() {
        *pulses -= 1;
    }
    item
}

impl Queue {
    /// Makes an empty queue; takes no memory.
    pub fn new(alloc: Global) -> Queue
        ensures { result ≡ record { items = []; room = 0 } }
    {
        Queue {
            lists: LevelRings::new(alloc),
            pulses: 0,
        }
    }

    /// Makes room for `n` more items; `NoMemory` if the allocator refuses. No other method takes memory for
    /// the queue.
    pub fn reserve(&mut self, n: usize) -> Result<(), Errno>
        ensures items { self.new.items ≡ self.old.items }
        ensures room { OnOk result (n ≤ self.new.room) }
        ensures kept { self.old.room ≤ self.new.room }

        // The error is `NoMemory`, and only if room was missing; then nothing changes.
        ensures succeeds { n ≤ self.old.room → IsOk result }
        ensures error { IfErr result (λ e. e ≡ NoMemory) }
        ensures err { OnErr result (self.new ≡ self.old) }
    {
        self.lists.reserve(n).map_err(|_| Errno::NoMemory)
    }

    /// Adds an item after all others. `reserve` must have made room for it: one place of the room is used,
    /// and no memory is taken. Returns the item's key, by which `remove` and `requeue` find the item at once.
    /// The item keeps this key as long as it is queued.
    pub fn push(&mut self, item: Item) -> usize
        requires room { 0 < self.old.room }
        requires newest { AllByRecursion (λ x. x.number < item.number) self.old.items }
        ensures items { self.new.items ≡ self.old.items ++ item ∷ [] }
        ensures room { self.new.room + 1 ≡ self.old.room }
    {
        let key = self.lists.append(item);
        if item.what.is_pulse() {
            let counted = self.pulses < self.lists.nodes.len();
            prove!(counted);
            self.pulses += 1;
        }
        key
    }

    /// Returns the item that `take` would return, and leaves it in the queue.
    pub fn best(&self, kind: Kind) -> Option<&Item>
        ensures { option_copied result ≡ best_of kind self.now.items }
    {
        let key = self.lists.best(kind)?;
        Some(&self.lists.nodes[key].item)
    }

    /// Takes out the item of greatest priority that a receive of this kind may take, and among equals the
    /// item that was sent first. Messages and pulses are in one order, by this kernel's own choice. `None` if
    /// there is no such item.
    pub fn take(&mut self, kind: Kind) -> Option<Item>
        ensures best { result ≡ best_of kind self.old.items }
        ensures rest { IfSome result (λ item. self.new.items ≡ without_item item.number self.old.items) }
        ensures unchanged { IfNone result (self.new ≡ self.old) }
        ensures room { self.old.room ≤ self.new.room }
    {
        let best = self.lists.best(kind)?;
        Some(take_out(&mut self.lists, &mut self.pulses, best))
    }

    /// Takes out the item of this number, whatever its priority; `None` if there is no such item. The key is
    /// a hint, and may be any number. If `push` returned it for this item, the item is found at once, and
    /// otherwise by a search of all items.
    pub fn remove(&mut self, number: u64, key: usize) -> Option<Item>
        ensures found { result ≡ item_of_number number self.old.items }
        ensures rest { self.new.items ≡ without_item number self.old.items }
        ensures unchanged { IfNone result (self.new ≡ self.old) }
        ensures room { self.old.room ≤ self.new.room }
    {
        let key = key_of(&self.lists.nodes, number, key)?;
        Some(take_out(&mut self.lists, &mut self.pulses, key))
    }

    /// Changes the priority of the item of this number; takes no memory. Returns whether there is such an
    /// item. The item moves to its place by number among the items of its new priority, not to their end. The
    /// key is a hint, as in `remove`.
    pub fn requeue(&mut self, number: u64, priority: Priority, key: usize) -> bool
        ensures found { result ≡ is_some (item_of_number number self.old.items) }
        ensures items { self.new.items ≡ with_item_priority number priority self.old.items }
        ensures unchanged { IsFalse result → self.new ≡ self.old }
        ensures room { self.new.room ≡ self.old.room }
    {
        match key_of(&self.lists.nodes, number, key) {
            Some(key) => {
                self.lists.requeue(key, priority);
                true
            }
            None => false,
        }
    }

    /// Returns a copy of all items, in the order in which they were sent. The time grows with the square of
    /// the number of items, so it is for a look at a small queue. No call of the kernel uses it.
    pub fn items(&self, alloc: Global) -> Result<Vec<Item>, AllocError>
        ensures { IfOk result (λ items. items.items ≡ self.now.items) }
    {
        in_order(alloc, &self.lists.nodes)
    }

    /// Returns the number of items.
    pub fn len(&self) -> usize
        ensures count { result ≡ length self.now.items }
        ensures rising { IsRising self.now.items }
    {
        self.lists.nodes.len()
    }

    /// Returns whether there are no items.
    pub fn is_empty(&self) -> bool
        ensures { result ≡ (length self.now.items == 0) }
    {
        self.lists.nodes.is_empty()
    }

    /// Returns the number of items that are pulses, including the kernel's own.
    pub fn pulses(&self) -> usize
        ensures { result ≡ count_by (λ x. is_pulse x.what) self.now.items }
    {
        self.pulses
    }
}
