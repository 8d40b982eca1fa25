//! The value under the lock.

ghost use Rattle.std.specs.Prelude.{◌≡◌, ◌+◌, ◌++◌, ◌<◌, ◌^◌, [], ◌∷◌, length};
ghost use Rattle.std.specs.Prelude.{IfErr, IfSome, is_ok, if◌then◌else◌, true};
ghost use Rattle.qhandoff.specs.Words.{cells_id};
ghost use Rattle.qshared.specs.Answered.{Answered, IsMet};
ghost use Rattle.qshared.specs.Collected.{collected_at};
ghost use Rattle.qshared.specs.Counting.{gives, pends, OnBusy};
ghost use Rattle.qshared.specs.Delivered.{origin_of, IsOrigin};
ghost use Rattle.qshared.specs.Desks.{IsNamed, IsPortIn, IsSamePort, names_in};
ghost use Rattle.qshared.specs.Performing.{called_by};

use crate::close_buffers::CloseBuffers;
use crate::delivery::{Delivery, Origin};
use crate::desk::Desk;
use crate::desk_port::DeskPort;
use crate::log::Log;
use crate::opener::Patient;
use crate::tie::{Tie, Whole};
use qbase::errno::Errno;
use qhandoff::cells::Cells;
use qmodel::call::Call;
use std::sync::Wait;
use std::sync::ledger::{Book, Share};

/// The value under the lock: the desk of all ports, the book that counts the history's events, and the room
/// that `finish` needs. Each port has a share of the book's count.
#[derive(Drop)]
pub(crate) struct LockState<K: Tie, L: Log> {
    pub(crate) desk: Desk<L>,
    pub(crate) book: Book<K>,
    pub(crate) spare: Share<K>,
    pub(crate) room: CloseBuffers<K>,
    pub(crate) whole: Whole<K>,
    ghost none_spare: { (spare.parts ≡ 0) × (spare.amount ≡ 0) },
    ghost counted: { length desk.traced.past ≡ book.total },
    ghost named: { IsNamed K.names desk.traced × (names_in desk.heard.items ≡ K.names.lists) },
}

impl<K: Tie, L: Log> LockState<K, L> {
    pub(crate) fn new(
        desk: Desk<L>,
        book: Book<K>,
        spare: Share<K>,
        room: CloseBuffers<K>,
    ) -> LockState<K, L>
        requires counted { (desk.traced.past ≡ []) × (book.total ≡ 0) }
        requires named { IsNamed K.names desk.traced × (names_in desk.heard.items ≡ K.names.lists) }
        requires whole { K.parts ≡ K.names.cells.slots }
        requires none_spare { (spare.parts ≡ 0) × (spare.amount ≡ 0) }
    {
        LockState {
            desk,
            book,
            spare,
            room,
            whole: Whole::new(),
        }
    }

    /// Makes a call of a port's thread. If the call is an event, counts it in the port's share. Afterwards
    /// the port has seen the whole history.
    #[inline(always)]
    pub(crate) fn call<R: Wait>(
        &mut self,
        cells: &Cells<Delivery, Origin>,
        rt: &R,
        share: &mut Share<K>,
        port: &mut DeskPort,
        call: &mut Call,
    ) -> Result<(), Errno>
        requires cells { (cells_id cells.now ≡ K.names.cells) × IsOrigin K.names (origin_of cells.now) }
        requires part { 0 < share.old.parts }
        requires port { IsPortIn K.names port.old }
        requires copies { IfSome port.old.turn.copies (λ c. c ≡ call.old) }
        ensures met { IsMet K.names.roster port.old.thread port.old.asked.calls port.old.seen.trace
            self.old.desk.traced.past }
        ensures came { Answered K.names.roster L.refuses L.admits port.old.thread call.old
            (called_by result port.new.turn.own call.old) self.old.desk.traced.past port.new.seen.trace }
        ensures busy { OnBusy (called_by result port.new.turn.own call.old) (port.old.turn.pending ≡ true) }
        ensures refused { IfErr result (λ e. call.new ≡ call.old) }
        ensures past { self.new.desk.traced.past ≡ port.new.seen.trace }
        ensures parts { share.new.parts ≡ share.old.parts }
        ensures amount { share.new.amount ≡ share.old.amount + (if is_ok result then 1 else 0) }
        ensures few { share.old.amount < 2 ^ 63 }
        ensures asked { port.new.asked.calls
            ≡ port.old.asked.calls ++ (if is_ok result then call.old ∷ [] else []) }
        ensures pending { port.new.turn.pending
            ≡ pends (called_by result port.new.turn.own call.old) port.old.turn.pending }
        ensures taken { collected_at port.new
            ≡ collected_at port.old ++ gives (called_by result port.new.turn.own call.old) }
        ensures last { port.new.last.trace ≡ port.new.seen.trace }
        ensures port { IsSamePort port.new port.old }
    {
        let _events = self.desk.traced.len();
        self.book.audit(share);
        let made = port.call(&mut self.desk, cells, &Patient { rt }, call);
        if made.is_ok() {
            self.book.add(share, 1);
        }
        made
    }
}
