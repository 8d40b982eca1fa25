//! The operations of the tokens. `atomic_table` makes every load, store and exchange of a word sequentially
//! consistent. A comment at each says which weaker order would be enough.

ghost use Rattle.std.specs.Prelude.{◌≡◌, ◌<◌, ◌++◌, [], ◌∷◌, true, false, ℕ, List};
ghost use Rattle.std.specs.Prelude.{IfSome, MatchBool, MatchOption, None, is_some};
ghost use Rattle.std.specs.Bool.{OnTrue};
ghost use Rattle.qhandoff.specs.Rule.{line};
ghost use Rattle.qhandoff.specs.Steps.{opened_kernel_view, cancelled_kernel_view, put_kernel_view, IsBusy};
ghost use Rattle.qhandoff.specs.Words.{count, kernel_view, origin_of, taken, kernel_id, thread_id, thread_of};
ghost use Rattle.qhandoff.specs.Words.{IsKernelOf, IsThreadOf};

use crate::cells::{Cells, word_of};
use crate::delivered::{Delivered, Told};
use crate::seats::{KernelSeat, ThreadSeat};
use crate::steps::{BeginPut, Cancel, EndPut, GiveBack, Open, Take};
use std::marker::Brand;

/// The cell is idle: it isn't opened, and has no completion.
const IDLE: u64 = 0;

/// The cell is opened for a completion that is still to come.
const OPENED: u64 = 1;

/// The cell has a completion that was put and isn't taken yet.
const FULL: u64 = 2;

impl<T> KernelSeat<T> {
    /// Opens the cell of a thread and returns `true`. Returns `false` and changes nothing if the cell isn't
    /// idle: it is opened already, or its completion isn't taken yet.
    pub fn open<O>(&mut self, cells: &Cells<T, O>, thread: usize) -> bool
    where
        T: Delivered<O>,
        requires cells { IsKernelOf cells.now self.old }
        requires thread { thread < count cells.now }
        ensures cells { kernel_id self.new ≡ kernel_id self.old }
        ensures won { OnTrue result ((line (kernel_view self.new) thread).opened ≡ true) }
        ensures kernel_view { MatchBool result
            ((kernel_view self.new ≡ opened_kernel_view (kernel_view self.old) thread)
            × ((line (kernel_view self.old) thread).opened ≡ false))
            ((kernel_view self.new ≡ kernel_view self.old) × IsBusy (line (kernel_view self.old) thread)) }
    {
        // This is SeqCst. Acquire is enough: it synchronizes with the release of the thread's last
        // `GiveBack`, which emptied the slot.
        let found = cells
            .table
            .shared
            .compare_exchange::<Open>(&mut self.seat, word_of(thread), IDLE, OPENED);
        found == IDLE
    }

    /// Makes an opened cell idle again.
    pub fn cancel<O>(&mut self, cells: &Cells<T, O>, thread: usize)
    where
        T: Delivered<O>,
        requires cells { IsKernelOf cells.now self.old }
        requires thread { thread < count cells.now }
        requires opened { (line (kernel_view self.old) thread).opened ≡ true }
        ensures cells { kernel_id self.new ≡ kernel_id self.old }
        ensures kernel_view { kernel_view self.new ≡ cancelled_kernel_view (kernel_view self.old) thread }
    {
        // This is SeqCst. Relaxed is enough: the slot wasn't touched, and the thread does the same at 0 as at
        // 1.
        cells
            .table
            .shared
            .store::<Cancel>(&mut self.seat, word_of(thread), IDLE)
    }

    /// Puts a completion into an opened cell.
    pub fn put<O>(&mut self, cells: &Cells<T, O>, thread: usize, completion: T)
    where
        T: Delivered<O>,
        requires cells { IsKernelOf cells.now self.old }
        requires thread { thread < count cells.now }
        requires opened { (line (kernel_view self.old) thread).opened ≡ true }
        requires allowed { T.may_be_put (origin_of cells.now) thread
            ((line (kernel_view self.old) thread).put ++ completion ∷ []) }
        ensures cells { kernel_id self.new ≡ kernel_id self.old }
        ensures kernel_view { kernel_view self.new ≡ put_kernel_view
            (kernel_view self.old) thread completion }
    {
        let shared = &cells.table.shared;
        let word = word_of(thread);
        // This load is SeqCst. Only the proof needs it: no other token touches the slot of an opened cell.
        shared.load::<BeginPut>(&mut self.seat, word);
        // This isn't atomic: the token now holds the slot, so this is a plain read and a plain write.
        drop(shared.exchange(&mut self.seat, thread, Some(completion)));
        // This is SeqCst. Release is enough: a thread that loads 2 with Acquire sees the whole completion in
        // the slot.
        shared.store::<EndPut>(&mut self.seat, word, FULL);
    }
}

impl<T> ThreadSeat<T> {
    /// Returns the index of the thread, which is the index of its cell.
    pub fn thread(&self) -> usize
        ensures number { result ≡ thread_of self.now }
        ensures within { result < (thread_id self.now).slots }
    {
        self.thread
    }

    /// Returns whether the thread's cell has a completion, which `poll` takes then. It never waits. Contracts
    /// don't see the result.
    #[inline(always)]
    pub fn has_completion<O>(&self, cells: &Cells<T, O>) -> bool
    where
        T: Delivered<O>,
        requires { IsThreadOf cells.now self.now }
    {
        // This is SeqCst, as the load of `poll`.
        cells.table.shared.peek(word_of(self.thread)) == FULL
    }

    /// Takes the completion out of the thread's cell, or returns `None` if there is none. Tries once and
    /// never waits.
    pub fn poll<O>(&mut self, cells: &Cells<T, O>) -> Option<T>
    where
        T: Delivered<O>,
        requires cells { IsThreadOf cells.now self.old }
        ensures cells { thread_id self.new ≡ thread_id self.old }
        ensures thread { thread_of self.new ≡ thread_of self.old }
        ensures taken { MatchOption result (taken self.new ≡ taken self.old)
            (λ x. taken self.new ≡ taken self.old ++ x ∷ []) }
        ensures allowed { IfSome result
            (λ x. T.may_be_put (origin_of cells.now) (thread_of self.old) (taken self.new)) }
    {
        let mut place = None;
        self.take_into(cells, &mut place);
        place
    }

    /// Takes the completion out of the thread's cell and puts it into an empty place. Returns whether there
    /// was one. Tries once and never waits. This is `poll` without the copies of a returned `Option`.
    #[inline(always)]
    pub fn take_into<O>(&mut self, cells: &Cells<T, O>, place: &mut Option<T>) -> bool
    where
        T: Delivered<O>,
        requires cells { IsThreadOf cells.now self.old }
        requires place { place.old ≡ None }
        ensures cells { thread_id self.new ≡ thread_id self.old }
        ensures thread { thread_of self.new ≡ thread_of self.old }
        ensures found { result ≡ is_some place.new }
        ensures taken { MatchOption place.new (taken self.new ≡ taken self.old)
            (λ x. taken self.new ≡ taken self.old ++ x ∷ []) }
        ensures allowed { IfSome place.new
            (λ x. T.may_be_put (origin_of cells.now) (thread_of self.old) (taken self.new)) }
    {
        self.take_told::<O, Brand>(cells, place)
    }

    /// Does the same as `take_into`, and is told the condition that W names.
    #[inline(always)]
    fn take_told<O, W: Told<T>>(&mut self, cells: &Cells<T, O>, place: &mut Option<T>) -> bool
    where
        T: Delivered<O>,
        requires cells { IsThreadOf cells.now self.old }
        requires place { place.old ≡ None }
        requires told { (t : ℕ) (xs : List T) → T.may_be_put (origin_of cells.now) t xs → W.told t xs }
        ensures cells { thread_id self.new ≡ thread_id self.old }
        ensures thread { thread_of self.new ≡ thread_of self.old }
        ensures found { result ≡ is_some place.new }
        ensures taken { MatchOption place.new (taken self.new ≡ taken self.old)
            (λ x. taken self.new ≡ taken self.old ++ x ∷ []) }
        ensures told { IfSome place.new (λ x. W.told (thread_of self.old) (taken self.new)) }
    {
        let shared = &cells.table.shared;
        let thread = self.thread;
        let word = word_of(thread);
        // This is SeqCst. Acquire is enough: it synchronizes with the release of `EndPut`, so it sees the
        // whole completion.
        if shared.load::<Take<W>>(&mut self.seat, word) != FULL {
            return false;
        }
        // This isn't atomic: no other token touches the slot of a full cell, so this is a plain read and a
        // plain write.
        *place = shared.exchange(&mut self.seat, thread, None);
        // This is SeqCst. Release is enough: a token that loads 0 with Acquire sees the slot as it is left
        // here.
        shared.store::<GiveBack>(&mut self.seat, word, IDLE);
        true
    }
}
