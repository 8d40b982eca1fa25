//! Priorities.

ghost use Rattle.std.specs.Prelude.{◌≡◌, ◌≤◌, ℕ};
ghost use Rattle.qbase.specs.Priority.{priority_of};

use std::marker::Model;

/// A priority from 1 to 255; a greater one is more urgent. The idle thread's 0 isn't allowed. Contracts see
/// the number.
#[derive(Clone, Copy, Debug, PartialEq, Eq)]
pub struct Priority {
    level: u8,
}

impl Model for Priority {
    ghost Value = { ℕ };

    ghost view = { λ p. p.level };

    ghost invariant = { λ p. (1 ≤ p.level) × (p.level ≤ 255) };

    ghost inverse = { λ n. record { level = n } };
}

impl Priority {
    /// Makes a priority from a number; `None` if the number is 0.
    /// `carried.rt` of `crates/balsaeuchre_examples` makes three.
    pub fn new(level: u8) -> Option<Priority>
        ensures { result ≡ priority_of level }
    {
        if level >= 1 {
            Some(Priority { level })
        } else {
            None
        }
    }

    /// Returns the lowest priority, 1.
    pub fn lowest() -> Priority
        ensures { result ≡ 1 }
    {
        Priority { level: 1 }
    }

    /// Returns the number, 1 to 255.
    pub fn get(self) -> u8
        ensures value { result ≡ self }
        ensures low { 1 ≤ result }
        ensures high { result ≤ 255 }
    {
        self.level
    }
}
