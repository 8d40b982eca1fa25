//! Takes the completion of a port's thread for C.

ghost use Rattle.std.specs.Prelude.{◌≡◌, true, false, MatchBool};
ghost use Rattle.qshared.specs.Collected.{collected_at};
ghost use Rattle.qshared.specs.Delivered.{origin_of};
ghost use Rattle.qshared.specs.Desks.{IsSamePort};
ghost use Rattle.balsaeuchre_c.specs.Ports.{IsTaken};

use crate::ports::library_port::LibraryPort;
use crate::row::Row;
use crate::write_rows::tell_without_sender;

impl LibraryPort {
    /// Returns whether there is a completion that `take` would take. Takes no lock and no memory, and never
    /// waits.
    pub fn has_completion(&self) -> bool {
        self.core.has_completion(&*self.cells)
    }

    /// Takes the completion that was put for the thread, writes it, and returns `true`. Returns `false`, and
    /// writes nothing, if there is none. Takes no lock and no memory, and never waits.
    pub fn take(&mut self, row: &mut Row, bytes: &mut [u8]) -> bool
        ensures taken { MatchBool result
            (IsTaken (origin_of self.old.cells.value).roster.value self.old.core self.new.core bytes.old
            bytes.new row.new)
            ((collected_at self.new.core ≡ collected_at self.old.core) × (row.new ≡ row.old)
            × (self.new.core.turn.pending ≡ self.old.core.turn.pending) × (bytes.new ≡ bytes.old)) }
        ensures same { IsSamePort self.new.core self.old.core
            × (self.new.core.asked ≡ self.old.core.asked) × (self.new.core.last ≡ self.old.core.last)
            × (self.new.cells ≡ self.old.cells) }
    {
        let Some(completion) = self.core.poll(&*self.cells) else {
            return false;
        };
        tell_without_sender(&completion, row, bytes);
        self.spares.keep(completion.buffer);
        true
    }
}
