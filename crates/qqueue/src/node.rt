//! The nodes, one for each item.

use crate::item::Item;

/// An item, and its links in a ring of nodes. A link is the key of a node.
#[derive(Clone, Copy, Debug)]
pub struct Node {
    /// The item.
    pub item: Item,
    /// The key of the node before it; the last node comes before the first.
    pub before: usize,
    /// The key of the node after it; the first node comes after the last.
    pub after: usize,
}
