//! Takes the completion of a port's thread out of its cell.

ghost use Rattle.std.specs.Prelude.{◌≡◌, ◌++◌, [], ◌∷◌, true, false, IfSome};
ghost use Rattle.std.specs.Prelude.{MatchOption, None, Some};
ghost use Rattle.qrules.specs.Facts.{threads_of};
ghost use Rattle.qhandoff.specs.Words.{cells_id, thread_id, thread_of, IsThreadOf};
ghost use Rattle.qshared.specs.Collected.{collected_at};
ghost use Rattle.qshared.specs.Delivered.{origin_of, taken, Arrives, IsAwaited};
ghost use Rattle.qshared.specs.Desks.{IsSamePort};
ghost use Rattle.qshared.specs.Due.{place};
ghost use Rattle.qshared.specs.History.{Extends};

use crate::delivery::{Delivery, Origin};
use crate::desk_port::DeskPort;
use crate::history::Prefix;
use qhandoff::cells::Cells;
use qhandoff::seats::ThreadSeat;
use qmodel::call::Completion;

/// Takes the completion that was put for a thread, if it is `pending` and there, and puts it into an empty
/// place. Learns the history up to the event that made it. The function has only the thread's token and the
/// cells. So it can take no lock and no memory, and can't wait for another thread.
#[inline(always)]
fn take(
    seat: &mut ThreadSeat<Delivery>,
    cells: &Cells<Delivery, Origin>,
    pending: &mut bool,
    seen: &mut Prefix,
    place: &mut Option<Completion>,
)
    requires seat { IsThreadOf cells.now seat.old }
    requires seen { seen.old.name ≡ (origin_of cells.now).seen.name }
    requires place { place.old ≡ None }
    ensures seat { (thread_id seat.new ≡ thread_id seat.old) × (thread_of seat.new ≡ thread_of seat.old) }
    ensures taken { MatchOption place.new (taken seat.new ≡ taken seat.old)
        (λ x. taken seat.new ≡ taken seat.old ++ x ∷ []) }
    ensures pending { MatchOption place.new (pending.new ≡ pending.old)
        (λ x. (pending.old ≡ true) × (pending.new ≡ false)) }
    ensures name { seen.new.name ≡ seen.old.name }
    ensures seen { MatchOption place.new (seen.new ≡ seen.old) (λ x. Extends seen.new.trace seen.old.trace) }
    ensures arrives { IfSome place.new (λ x. Arrives (origin_of cells.now).roster.value (thread_of seat.old)
        (taken seat.new) x seen.new.trace) }
{
    if !*pending {
        return;
    }
    let mut found = None;
    if !seat.take_into(cells, &mut found) {
        return;
    }
    let Some(delivery) = found else {
        unreachable!()
    };
    let Delivery {
        completion,
        seen: made,
    } = delivery;
    seen.learn(&made);
    *pending = false;
    *place = Some(completion);
}

impl DeskPort {
    /// Returns whether there is a completion that `poll` would take. Takes no lock and no memory, and never
    /// waits.
    #[inline(always)]
    pub fn has_completion(&self, cells: &Cells<Delivery, Origin>) -> bool
        requires cells { IsThreadOf cells.now self.now.seat }
    {
        self.seat.has_completion(cells)
    }

    /// Takes the completion that was put for the thread, if there is one. Takes no lock and no memory, and
    /// never waits.
    #[inline(always)]
    pub fn poll(&mut self, cells: &Cells<Delivery, Origin>) -> Option<Completion>
        requires cells { thread_id self.old.seat ≡ cells_id cells.now }
        requires at { place (threads_of (origin_of cells.now).roster.value) self.old.thread
            ≡ Some (thread_of self.old.seat) }
        requires seen { self.old.seen.name ≡ (origin_of cells.now).seen.name }
        ensures taken { MatchOption result (collected_at self.new ≡ collected_at self.old)
            (λ x. collected_at self.new ≡ collected_at self.old ++ x ∷ []) }
        ensures pending { MatchOption result (self.new.turn.pending ≡ self.old.turn.pending)
            (λ x. self.new.turn.pending ≡ false) }
        ensures same { IsSamePort self.new self.old × (self.new.asked ≡ self.old.asked)
            × (self.new.last ≡ self.old.last) }
        ensures seen { MatchOption result (self.new.seen ≡ self.old.seen)
            (λ x. Extends self.new.seen.trace self.old.seen.trace) }
        ensures came { IfSome result (λ x. IsAwaited (origin_of cells.now).roster.value self.old.thread
            self.old.asked.calls self.old.last.trace x self.new.seen.trace) }
    {
        let mut place = None;
        take(
            &mut self.seat,
            cells,
            &mut self.turn.pending,
            &mut self.seen,
            &mut place,
        );
        place
    }

    /// Learns a prefix of the history that another port has seen. The next call is then known to come after
    /// its events.
    pub fn learn(&mut self, other: &Prefix)
        requires { self.old.seen.name ≡ other.now.name }
        ensures own { Extends self.new.seen.trace self.old.seen.trace }
        ensures others { Extends self.new.seen.trace other.now.trace }
        ensures taken { collected_at self.new ≡ collected_at self.old }
        ensures same { IsSamePort self.new self.old × (self.new.seat ≡ self.old.seat)
            × (self.new.turn ≡ self.old.turn) × (self.new.asked ≡ self.old.asked)
            × (self.new.last ≡ self.old.last) }
    {
        self.seen.learn(other);
    }
}
