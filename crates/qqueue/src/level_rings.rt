//! The nodes and rings of a queue: adds items, removes them, changes their priority, and finds the best one.

ghost use Rattle.std.specs.Prelude.{◌≡◌, ◌≢◌, ◌+◌, ◌<◌, ◌≤◌, ℕ, [], ◌∷◌, ◌++◌, None, Some, IfSome, IfNone};
ghost use Rattle.std.specs.Prelude.{IsSome, OnOk, OnErr, IsOk, if◌then◌else◌, unwrap_or};
ghost use Rattle.std.specs.List.{AllByRecursion};
ghost use Rattle.std.specs.Vec.{vec_len, vec_capacity};
ghost use Rattle.slab.specs.Slab.{slab_len};
ghost use Rattle.qqueue.specs.Best.{best_of, is_pulse, without_item, with_item_priority, with_priority};
ghost use Rattle.qqueue.specs.LevelHeads.{first_in, IsEarlier, IsForemost};
ghost use Rattle.qqueue.specs.Rings.{put_place, places_after, places_of, items_at, pulses_of, Rises, keys_on};
ghost use Rattle.qqueue.specs.Rings.{Ring, first_of, after_of, before_of, item_of, item_at, Linked};
ghost use Rattle.qqueue.specs.Joins.{Joined, ClosedUp};

use crate::item::{Item, Kind};
use crate::level_heads::LevelHeads;
use crate::links::{add, link};
use crate::node::Node;
use qbase::priority::Priority;
use slab::Slab;
use std::alloc::{AllocError, Global};

/// The nodes of a queue. For each level of priority the messages are linked in one ring, and the pulses in
/// another. Each ring is in rising number.
#[derive(Debug, Drop)]
pub struct LevelRings {
    /// The rings of messages.
    pub messages: LevelHeads,
    /// The rings of pulses.
    pub pulses: LevelHeads,
    /// The nodes of all rings.
    pub nodes: Slab<Node>,
    /// The number of nodes that can still be added without taking memory.
    pub room: usize,
}

/// Returns how many nodes can still be added without taking memory.
fn room_of(nodes: &Slab<Node>) -> usize
    ensures { slab_len nodes.now + result ≡ nodes.now.capacity }
{
    nodes.capacity() - nodes.len()
}

/// Moves a node that is a ring of its own to a level's ring: before the node `next`, or to the end if `next`
/// is `None`.
fn join(lane: &mut LevelHeads, nodes: &mut Slab<Node>, level: u8, key: usize, next: Option<usize>)
    requires made { vec_len lane.old.firsts ≡ 256 }
    requires there { IsSome (item_of nodes.old key) }
    requires next_there { (first : ℕ) → first_in lane.old level ≡ Some first
        → IsSome (item_of nodes.old (unwrap_or next first)) × (unwrap_or next first ≢ key) }
    requires prior_there { (first prior : ℕ) → first_in lane.old level ≡ Some first
        → before_of nodes.old (unwrap_or next first) ≡ Some prior → IsSome (item_of nodes.old prior)
        × (prior ≢ key) }
    ensures joined { Joined (first_in lane.old) (first_in lane.new) nodes.old nodes.new level key next }
    ensures firsts { vec_len lane.new.firsts ≡ vec_len lane.old.firsts }
    ensures len { slab_len nodes.new ≡ slab_len nodes.old }
    ensures capacity { nodes.new.capacity ≡ nodes.old.capacity }
    ensures vacant { nodes.new.vacant_key ≡ nodes.old.vacant_key }
{
    match lane.first(level) {
        None => lane.set(level, key),
        Some(first) => {
            let after = next.unwrap_or(first);
            let prior = nodes[after].before;
            link(nodes, prior, key);
            link(nodes, key, after);
            if next == Some(first) {
                lane.set(level, key);
            }
        }
    }
}

/// Closes a level's ring after `node` was taken out of it.
fn close_up(lane: &mut LevelHeads, nodes: &mut Slab<Node>, key: usize, node: Node)
    requires made { vec_len lane.old.firsts ≡ 256 }
    requires before_there { node.after ≢ key → IsSome (item_of nodes.old node.before) }
    requires after_there { node.after ≢ key → IsSome (item_of nodes.old node.after) }
    ensures closed { ClosedUp (first_in lane.old) (first_in lane.new) nodes.old nodes.new key node }
    ensures firsts { vec_len lane.new.firsts ≡ vec_len lane.old.firsts }
    ensures len { slab_len nodes.new ≡ slab_len nodes.old }
    ensures capacity { nodes.new.capacity ≡ nodes.old.capacity }
    ensures vacant { nodes.new.vacant_key ≡ nodes.old.vacant_key }
{
    let level = node.item.priority.get();
    if node.after == key {
        lane.clear(level);
        return;
    }
    link(nodes, node.before, node.after);
    if let Some(first) = lane.first(level) {
        if first == key {
            lane.set(level, node.after);
        }
    }
}

/// Returns the key of the first node whose number is greater than the item's; `None` if no number is greater.
/// The ring of the item's kind and level begins at the key `first`.
fn next_from(nodes: &Slab<Node>, first: usize, item: &Item) -> Option<usize>
    requires rises { Rises (places_of nodes.now) }
    requires first { first_of (keys_on (is_pulse item.now.what) item.now.priority (places_of nodes.now))
        ≡ Some first }
    requires ring { Ring nodes.now
        (keys_on (is_pulse item.now.what) item.now.priority (places_of nodes.now)) }
    ensures { result ≡ first_of
        (keys_on (is_pulse item.now.what) item.now.priority
        (places_after item.now.number (places_of nodes.now))) }
{
    // The numbers rise. If the last one isn't greater than the item's, none is, and no walk is needed.
    let last = nodes[first].before;
    if nodes[last].item.number <= item.number {
        return None;
    }
    // The last number is greater, so the walk ends there or before.
    let mut key = first;
    while nodes[key].item.number <= item.number {
        key = nodes[key].after;
    }
    Some(key)
}

/// Returns the key of the foremost message or of the foremost pulse, whichever is received first. The greater
/// level is received first, or the lesser number if both have the same level.
fn earlier(nodes: &Slab<Node>, message: (u8, usize), pulse: (u8, usize)) -> usize
    requires message_there { IsSome (item_of nodes.now message.1) }
    requires pulse_there { IsSome (item_of nodes.now pulse.1) }
    ensures there { IsSome (item_of nodes.now result) }
    ensures first { IfSome (item_of nodes.now message.1)
        (λ m. IfSome (item_of nodes.now pulse.1) (λ p. IsEarlier message m pulse p result)) }
{
    if message.0 != pulse.0 {
        return if message.0 > pulse.0 {
            message.1
        } else {
            pulse.1
        };
    }
    if nodes[message.1].item.number < nodes[pulse.1].item.number {
        message.1
    } else {
        pulse.1
    }
}

impl LevelRings {
    ghost use Rattle.qqueue.specs.Kept.{IsKept};

    /// Makes empty lists; takes no memory.
    pub fn new(alloc: Global) -> LevelRings
        ensures kept { IsKept result }
        ensures empty { result.nodes.slots ≡ [] }
        ensures room { result.room ≡ 0 }
        ensures nodes { result.nodes.capacity ≡ 0 }
        ensures messages { vec_capacity result.messages.firsts ≡ 0 }
        ensures pulses { vec_capacity result.pulses.firsts ≡ 0 }
    {
        LevelRings {
            messages: LevelHeads::new(alloc),
            pulses: LevelHeads::new(alloc),
            nodes: Slab::new(alloc),
            room: 0,
        }
    }

    /// Makes room for `n` more nodes and, the first time, for the keys of the first nodes; error if the
    /// allocator refuses.
    pub fn reserve(&mut self, n: usize) -> Result<(), AllocError>
        requires { IsKept self.old }
        ensures kept { IsKept self.new }
        ensures room { OnOk result (n ≤ self.new.room) }
        ensures more { self.old.room ≤ self.new.room }
        ensures slots { self.new.nodes.slots ≡ self.old.nodes.slots }
        ensures succeeds { n ≤ self.old.room → IsOk result }
        ensures err { OnErr result (self.new.room ≡ self.old.room) }
    {
        if n <= self.room {
            return Ok(());
        }
        self.messages.make()?;
        self.pulses.make()?;
        self.nodes.reserve(n)?;
        self.room = room_of(&self.nodes);
        Ok(())
    }

    /// Adds an item after all others, and returns its key. Takes no memory, because there is room.
    pub fn append(&mut self, item: Item) -> usize
        requires kept { IsKept self.old }
        requires room { 0 < self.old.room }
        requires newest { AllByRecursion (λ place. place.0.number < item.number) (places_of self.old.nodes) }
        ensures kept { IsKept self.new }
        ensures items { items_at (places_of self.new.nodes) ≡ items_at (places_of self.old.nodes)
            ++ item ∷ [] }
        ensures len { slab_len self.new.nodes ≡ slab_len self.old.nodes + 1 }
        ensures room { self.new.room + 1 ≡ self.old.room }
    {
        self.put(item, None)
    }

    /// Adds an item at its place by number, and returns its key. Takes no memory, because there is room.
    fn insert(&mut self, item: Item) -> usize
        requires kept { IsKept self.old }
        requires room { 0 < self.old.room }
        requires apart { AllByRecursion (λ place. place.0.number ≢ item.number) (places_of self.old.nodes) }
        ensures kept { IsKept self.new }
        ensures key { result ≡ self.old.nodes.vacant_key }
        ensures places { places_of self.new.nodes ≡ put_place (item, result) (places_of self.old.nodes) }
        ensures room { self.new.room + 1 ≡ self.old.room }
    {
        let next = self.next_of(&item);
        self.put(item, next)
    }

    /// Adds an item before the node `next` of its kind and level, or after all of them if `next` is `None`.
    /// Returns its key. Takes no memory, because there is room.
    fn put(&mut self, item: Item, next: Option<usize>) -> usize
        requires kept { IsKept self.old }
        requires room { 0 < self.old.room }
        requires apart { AllByRecursion (λ place. place.0.number ≢ item.number) (places_of self.old.nodes) }
        requires next { next ≡ first_of
            (keys_on (is_pulse item.what) item.priority
            (places_after item.number (places_of self.old.nodes))) }
        ensures kept { IsKept self.new }
        ensures key { result ≡ self.old.nodes.vacant_key }
        ensures places { places_of self.new.nodes ≡ put_place (item, result) (places_of self.old.nodes) }
        ensures len { slab_len self.new.nodes ≡ slab_len self.old.nodes + 1 }
        ensures room { self.new.room + 1 ≡ self.old.room }
    {
        self.room -= 1;
        let key = add(&mut self.nodes, item);
        let level = item.priority.get();
        if item.what.is_pulse() {
            join(&mut self.pulses, &mut self.nodes, level, key, next);
        } else {
            join(&mut self.messages, &mut self.nodes, level, key, next);
        }
        key
    }

    /// Returns the key of the first item of the same kind and level that has a greater number; `None` if
    /// there is none.
    fn next_of(&self, item: &Item) -> Option<usize>
        requires kept { IsKept self.now }
        requires room { 0 < self.now.room }
        ensures { result ≡ first_of
            (keys_on (is_pulse item.now.what) item.now.priority
            (places_after item.now.number (places_of self.now.nodes))) }
    {
        let level = item.priority.get();
        let first = if item.what.is_pulse() {
            self.pulses.first(level)
        } else {
            self.messages.first(level)
        };
        next_from(&self.nodes, first?, item)
    }

    /// Removes the item under this key, and returns it.
    pub fn take_out(&mut self, key: usize) -> Item
        requires kept { IsKept self.old }
        requires there { IsSome (item_of self.old.nodes key) }
        ensures item { item_of self.old.nodes key ≡ Some result }
        ensures places { places_of self.old.nodes ≡ put_place (result, key) (places_of self.new.nodes) }
        ensures rest { items_at (places_of self.new.nodes) ≡ without_item result.number
            (items_at (places_of self.old.nodes)) }
        ensures counts { pulses_of (items_at (places_of self.old.nodes)) ≡ pulses_of
            (items_at (places_of self.new.nodes)) + (if is_pulse result.what then 1 else 0) }
        ensures vacant { self.new.nodes.vacant_key ≡ key }
        ensures kept { IsKept self.new }
        ensures room { self.old.room < self.new.room }
    {
        let node = self.nodes.remove(key);
        self.room = room_of(&self.nodes);
        if node.item.what.is_pulse() {
            close_up(&mut self.pulses, &mut self.nodes, key, node);
        } else {
            close_up(&mut self.messages, &mut self.nodes, key, node);
        }
        node.item
    }

    /// Changes the priority of the item under this key. The item moves to its place by number among the items
    /// of that priority, and keeps its key.
    pub fn requeue(&mut self, key: usize, priority: Priority)
        requires kept { IsKept self.old }
        requires there { IsSome (item_of self.old.nodes key) }
        ensures items { IfSome (item_of self.old.nodes key)
            (λ item. items_at (places_of self.new.nodes) ≡ with_item_priority item.number priority
            (items_at (places_of self.old.nodes))) }
        ensures same_key { IfSome (item_of self.old.nodes key)
            (λ item. item_of self.new.nodes key ≡ Some (with_priority priority item)) }
        ensures counts { pulses_of (items_at (places_of self.new.nodes)) ≡ pulses_of
            (items_at (places_of self.old.nodes)) }
        ensures kept { IsKept self.new }
        ensures room { self.new.room ≡ self.old.room }
    {
        let room = self.room;
        let item = self.take_out(key);
        // The key that was vacated last is used first, so the item gets its own key again.
        self.insert(Item { priority, ..item });
        // The item that was removed left room for itself, so the reserved room is the same.
        self.room = room;
    }

    /// Returns the key of the item that a receive of this kind takes, the first of the greatest level; `None`
    /// if there is none. It searches only the sets of levels.
    pub fn best(&self, kind: Kind) -> Option<usize>
        requires { IsKept self.now }
        ensures best { item_at self.now.nodes result ≡ best_of kind (items_at (places_of self.now.nodes)) }
        ensures there { IfSome result (λ key. IsSome (item_of self.now.nodes key)) }
    {
        let pulse = self.pulses.foremost();
        match kind {
            Kind::PulseOnly => Some(pulse?.1),
            Kind::Any => self.best_with(pulse),
        }
    }

    /// Returns the key of the best of all items, given the foremost pulse; `None` if there are no items.
    fn best_with(&self, pulse: Option<(u8, usize)>) -> Option<usize>
        requires kept { IsKept self.now }
        requires some { IfSome pulse (λ found. IsForemost (first_in self.now.pulses) found) }
        requires none { IfNone pulse ((level : ℕ) → first_in self.now.pulses level ≡ None) }
        ensures best { item_at self.now.nodes result ≡ best_of Kind.Any
            (items_at (places_of self.now.nodes)) }
        ensures there { IfSome result (λ key. IsSome (item_of self.now.nodes key)) }
    {
        match (self.messages.foremost(), pulse) {
            (Some(message), Some(pulse)) => Some(earlier(&self.nodes, message, pulse)),
            (Some(message), None) => Some(message.1),
            (None, Some(pulse)) => Some(pulse.1),
            (None, None) => None,
        }
    }
}
