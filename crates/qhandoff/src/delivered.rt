//! The values that are put into cells.

ghost use Rattle.std.specs.Prelude.{ℕ, List};

use std::marker::Brand;

/// A value that the kernel puts into a thread's cell. The cells are made with a value of type `O`, their
/// origin, which only contracts read.
pub trait Delivered<O>: Drop {
    /// The condition on the values that are put for the thread at an index, oldest first, given the origin of
    /// the cells. Each put keeps it, so a thread that takes a value knows it of all values that it took.
    ghost may_be_put: { O → ℕ → List Self → Type 0 };
}

/// A condition on the values that were put for the thread at an index, which a step tells its caller.
pub(crate) trait Told<T> {
    ghost told: { ℕ → List T → Type 0 };
}

impl<T> Told<T> for Brand {
    ghost told = { λ _ _. Unit {0} };
}
