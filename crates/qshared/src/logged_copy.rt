//! Copies of a call, which a port makes before it takes the lock.

ghost use Rattle.std.specs.Prelude.{◌≡◌, ◌≤◌, length, IfSome};
ghost use Rattle.qmodel.specs.Buffers.{buffer_of};

use crate::preallocated::Preallocated;
use qmodel::call::Call;
use std::alloc::Global;
use std::marker::Model;

/// A copy of a call, and room for a copy of its buffer. Contracts see the call.
#[derive(Drop)]
pub struct LoggedCopy {
    call: Call,
    room: Preallocated,
}

impl Model for LoggedCopy {
    ghost use Rattle.std.specs.Prelude.{◌≤◌, length};
    ghost use Rattle.qmodel.specs.Buffers.{buffer_of};
    ghost use Rattle.qmodel.specs.declared.call.Call.{Call};

    ghost Value = { Call };

    ghost view = { λ c. c.call };

    ghost invariant = { λ c. length (buffer_of c.call) ≤ c.room };
}

impl LoggedCopy {
    /// Copies a call, or returns `None` if the allocator refuses.
    pub fn of(alloc: Global, call: &Call) -> Option<LoggedCopy>
        ensures { IfSome result (λ copies. copies ≡ call.now) }
    {
        let Ok(copy) = call.copied(alloc) else {
            return None;
        };
        let Ok(room) = Preallocated::of(alloc, call.buffer_len()) else {
            return None;
        };
        Some(LoggedCopy { call: copy, room })
    }

    /// Returns the copy of the call, and room for a copy of its buffer.
    pub fn into_parts(self) -> (Call, Preallocated)
        ensures call { result.0 ≡ self }
        ensures room { length (buffer_of self) ≤ result.1 }
    {
        let LoggedCopy { call, room } = self;
        (call, room)
    }
}
