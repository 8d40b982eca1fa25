//! The first nodes of the rings of one kind of items, with one ring for each level of priority.

ghost use Rattle.std.specs.Prelude.{◌≡◌, ◌≢◌, ◌≤◌, ℕ, None, Some, IfSome, IfNone, OnOk, OnErr};
ghost use Rattle.std.specs.Vec.{vec_len, vec_capacity};
ghost use Rattle.qqueue.specs.LevelHeads.{first_in, IsForemost};

use qbase::byte_set::ByteSet;
use std::alloc::{AllocError, Global};

/// The number of levels: the priorities from 1 to 255, and 0, which no item has.
const LEVELS: usize = 256;

/// The set of levels that have nodes, and the key of each level's first node. A key has a meaning only if its
/// level is in the set.
#[derive(Debug, Drop)]
pub struct LevelHeads {
    /// The levels that have a node.
    pub levels: ByteSet,
    /// The keys of the first nodes, by level. The list is empty until `make` is called.
    pub firsts: Vec<usize>,
}

impl LevelHeads {
    /// Makes a lane without nodes; takes no memory.
    pub fn new(alloc: Global) -> LevelHeads
        ensures none { (level : ℕ) → first_in result level ≡ None }
        ensures empty { vec_len result.firsts ≡ 0 }
        ensures capacity { vec_capacity result.firsts ≡ 0 }
    {
        LevelHeads {
            levels: ByteSet::new(),
            firsts: Vec::new(alloc),
        }
    }

    /// Makes room for the keys of all levels, if there is none yet; error if the allocator refuses.
    pub fn make(&mut self) -> Result<(), AllocError>
        requires { vec_len self.old.firsts ≤ 256 }
        ensures made { OnOk result (vec_len self.new.firsts ≡ 256) }
        ensures err { OnErr result (vec_len self.new.firsts ≡ vec_len self.old.firsts) }
        ensures kept { (level : ℕ) → first_in self.new level ≡ first_in self.old level }
    {
        self.firsts.resize(LEVELS, 0)
    }

    /// Returns the key of a level's first node; `None` if the level has no node.
    pub fn first(&self, level: u8) -> Option<usize>
        requires { vec_len self.now.firsts ≡ 256 }
        ensures { result ≡ first_in self.now level }
    {
        if self.levels.contains(level) {
            Some(self.firsts[level as usize])
        } else {
            None
        }
    }

    /// Sets the first node of a level.
    pub fn set(&mut self, level: u8, key: usize)
        requires { vec_len self.old.firsts ≡ 256 }
        ensures set { first_in self.new level ≡ Some key }
        ensures others { (other : ℕ) → other ≢ level → first_in self.new other ≡ first_in self.old other }
        ensures len { vec_len self.new.firsts ≡ vec_len self.old.firsts }
    {
        self.firsts[level as usize] = key;
        self.levels.insert(level);
    }

    /// Records that a level has no node.
    pub fn clear(&mut self, level: u8)
        ensures cleared { first_in self.new level ≡ None }
        ensures others { (other : ℕ) → other ≢ level → first_in self.new other ≡ first_in self.old other }
        ensures len { vec_len self.new.firsts ≡ vec_len self.old.firsts }
    {
        self.levels.remove(level);
    }

    /// Returns the greatest level that has a node, with the key of its first node; `None` if no level has
    /// one.
    pub fn foremost(&self) -> Option<(u8, usize)>
        requires { (level key : ℕ) → first_in self.now level ≡ Some key → vec_len self.now.firsts ≡ 256 }
        ensures some { IfSome result (λ found. IsForemost (first_in self.now) found) }
        ensures none { IfNone result ((level : ℕ) → first_in self.now level ≡ None) }
    {
        let level = self.levels.greatest()?;
        Some((level, self.firsts[level as usize]))
    }
}
