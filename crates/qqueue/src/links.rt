//! The links between nodes.

ghost use Rattle.std.specs.Prelude.{◌≡◌, ◌≢◌, ◌+◌, ◌==◌, ℕ, None, Some, IfSome, IfNone, IsSome};
ghost use Rattle.slab.specs.Slab.{get, slab_len, HasRoomFor};
ghost use Rattle.qqueue.specs.Rings.{after_of, before_of, item_of, Linked};

use crate::item::Item;
use crate::node::Node;
use slab::Slab;

/// Sets the node after a node.
fn set_after(nodes: &mut Slab<Node>, key: usize, after: usize)
    requires { IsSome (item_of nodes.old key) }
    ensures set { after_of nodes.new key ≡ Some after }
    ensures others { (x : ℕ) → x ≢ key → after_of nodes.new x ≡ after_of nodes.old x }
    ensures before { (x : ℕ) → before_of nodes.new x ≡ before_of nodes.old x }
    ensures items { (x : ℕ) → item_of nodes.new x ≡ item_of nodes.old x }
    ensures len { slab_len nodes.new ≡ slab_len nodes.old }
    ensures capacity { nodes.new.capacity ≡ nodes.old.capacity }
    ensures vacant { nodes.new.vacant_key ≡ nodes.old.vacant_key }
{
    nodes[key].after = after;
}

/// Sets the node before a node.
fn set_before(nodes: &mut Slab<Node>, key: usize, before: usize)
    requires { IsSome (item_of nodes.old key) }
    ensures set { before_of nodes.new key ≡ Some before }
    ensures others { (x : ℕ) → x ≢ key → before_of nodes.new x ≡ before_of nodes.old x }
    ensures after { (x : ℕ) → after_of nodes.new x ≡ after_of nodes.old x }
    ensures items { (x : ℕ) → item_of nodes.new x ≡ item_of nodes.old x }
    ensures len { slab_len nodes.new ≡ slab_len nodes.old }
    ensures capacity { nodes.new.capacity ≡ nodes.old.capacity }
    ensures vacant { nodes.new.vacant_key ≡ nodes.old.vacant_key }
{
    nodes[key].before = before;
}

/// Links two nodes: the second comes after the first, and the first before the second.
pub fn link(nodes: &mut Slab<Node>, first: usize, second: usize)
    requires first_there { IsSome (item_of nodes.old first) }
    requires second_there { IsSome (item_of nodes.old second) }
    ensures linked { Linked nodes.new first second }
    ensures after { (x : ℕ) → x ≢ first → after_of nodes.new x ≡ after_of nodes.old x }
    ensures before { (x : ℕ) → x ≢ second → before_of nodes.new x ≡ before_of nodes.old x }
    ensures items { (x : ℕ) → item_of nodes.new x ≡ item_of nodes.old x }
    ensures len { slab_len nodes.new ≡ slab_len nodes.old }
    ensures capacity { nodes.new.capacity ≡ nodes.old.capacity }
    ensures vacant { nodes.new.vacant_key ≡ nodes.old.vacant_key }
{
    set_after(nodes, first, second);
    set_before(nodes, second, first);
}

/// Adds a node that is a ring of its own, and returns its key: the key that was vacated last. Takes no
/// memory, because there is room.
pub fn add(nodes: &mut Slab<Node>, item: Item) -> usize
    requires { HasRoomFor nodes.old 1 }
    ensures key { result ≡ nodes.old.vacant_key }
    ensures free { item_of nodes.old result ≡ None }
    ensures item { item_of nodes.new result ≡ Some item }
    ensures alone { Linked nodes.new result result }
    ensures items { (x : ℕ) → x ≢ result → item_of nodes.new x ≡ item_of nodes.old x }
    ensures after { (x : ℕ) → x ≢ result → after_of nodes.new x ≡ after_of nodes.old x }
    ensures before { (x : ℕ) → x ≢ result → before_of nodes.new x ≡ before_of nodes.old x }
    ensures len { slab_len nodes.new ≡ slab_len nodes.old + 1 }
    ensures capacity { nodes.new.capacity ≡ nodes.old.capacity }
{
    let key = nodes.vacant_key();
    nodes.insert_reserved(Node {
        item,
        before: key,
        after: key,
    })
}

/// Searches all nodes for the item of this number, and returns its key; `None` if there is no such item.
fn search(nodes: &Slab<Node>, number: u64) -> Option<usize>
    ensures found { IfSome result (λ key. IfSome (item_of nodes.now key) (λ item. item.number ≡ number)) }
    ensures there { IfSome result (λ key. IsSome (item_of nodes.now key)) }
    ensures absent { IfNone result
        ((key : ℕ) → IfSome (item_of nodes.now key) (λ item. item.number ≢ number)) }
{
    for (key, node) in nodes.iter() {
        if node.item.number == number {
            return Some(key);
        }
    }
    None
}

/// Returns the key of the item of this number; `None` if there is no such item. It looks under `key` first,
/// and then searches all nodes.
pub fn key_of(nodes: &Slab<Node>, number: u64, key: usize) -> Option<usize>
    ensures found { IfSome result (λ key. IfSome (item_of nodes.now key) (λ item. item.number ≡ number)) }
    ensures there { IfSome result (λ key. IsSome (item_of nodes.now key)) }
    ensures absent { IfNone result
        ((key : ℕ) → IfSome (item_of nodes.now key) (λ item. item.number ≢ number)) }
{
    match nodes.get(key) {
        Some(node) if node.item.number == number => Some(key),
        _ => search(nodes, number),
    }
}
