//! The receivers of a channel.

ghost use Rattle.std.specs.Prelude.{option_and_then, ◌≡◌, ◌+◌, ℕ, true, None, Some, drop, option_map, IfNone};
ghost use Rattle.std.specs.Prelude.{IfSome};
ghost use Rattle.qqueue.specs.declared.item.Item.{Item};
ghost use Rattle.qtables.specs.Members.{IsRoster};
ghost use Rattle.qkernel_state.specs.Contents.{members_of};
ghost use Rattle.qmodel.specs.OpenCalls.{receive_in};
ghost use Rattle.qkernel_state.specs.Thread.{newest_in, open_in, Wakes};
ghost use Rattle.qkernel_state.specs.Threads.{IsSeatIn, newest_of, number_and_thread};

use crate::thread::Thread;
use crate::thread_ref::ThreadRef;
use crate::threads::Threads;
use qbase::ids::ChannelId;
use qbase::priority::Priority;
use qmodel::open_call::OpenReceive;
use qqueue::item::Item;

/// Returns the number of a thread together with its index.
fn seat_of(there: &Thread, index: usize) -> ThreadRef
    ensures thread { result.thread ≡ there.now.member.thread }
    ensures index { result.index ≡ index }
{
    ThreadRef {
        thread: there.member.thread,
        index,
    }
}

/// Returns the newer of `best` and the thread at an index, each with the number of its receive. The thread
/// counts only if it is blocked in a receive on the channel that may take the item.
fn newer(
    threads: &[Thread],
    best: Option<(u64, ThreadRef)>,
    index: usize,
    channel: ChannelId,
    item: &Item,
) -> Option<(u64, ThreadRef)>
    requires roster { IsRoster (members_of threads.now) }
    requires best { number_and_thread best ≡ newest_of channel item.now (drop (index + 1) threads.now) }
    requires seat { IfSome best (λ b. IsSeatIn threads.now b.1) }
    ensures newest { number_and_thread result ≡ newest_of channel item.now (drop index threads.now) }
    ensures seat { IfSome result (λ b. IsSeatIn threads.now b.1) }
{
    let Some(there) = threads.get(index) else {
        return best;
    };
    let Some(number) = there.receives(channel, item) else {
        return best;
    };
    match best {
        Some(best) if best.0 > number => Some(best),
        _ => Some((number, seat_of(there, index))),
    }
}

impl Threads {
    /// Returns the index of the last thread that blocked in a receive, if it is still blocked there, on this
    /// channel, and may take the item. Returns `None` if the numbers of calls haven't risen, since the
    /// last receiver may then not be the newest.
    fn last_receiver(&self, channel: ChannelId, item: &Item) -> Option<ThreadRef>
        ensures seat { IfSome result (λ seat. IsSeatIn self.now seat) }
        ensures newest { IfSome result (λ seat. newest_in channel item.now self.now ≡ Some seat.thread) }
    {
        let last = self.index.last as usize;
        let number = self.records.get(last)?.receives(channel, item)?;
        if self.index.rising && number == self.index.newest {
            Some(self.seat_at(last))
        } else {
            None
        }
    }

    /// Returns the newest receiver of the channel that may take the item, and the number of its receive.
    /// Searches all receivers.
    fn search_receiver(&self, channel: ChannelId, item: &Item) -> Option<(u64, ThreadRef)>
        ensures newest { option_map (λ b. b.1.thread) result ≡ newest_in channel item.now self.now }
        ensures seat { IfSome result (λ b. IsSeatIn self.now b.1) }
    {
        let threads: &[Thread] = &self.records;
        let mut best = None;
        let mut left = self.index.receivers;
        for _ in 0..256usize {
            let Some(index) = left.greatest() else {
                return best;
            };
            left.remove(index);
            best = newer(threads, best, index as usize, channel, item);
        }
        best
    }

    /// Returns the index of the newest receiver of the channel that may take the item, or `None` if there is
    /// none.
    pub fn newest_receiver(&self, channel: ChannelId, item: &Item) -> Option<ThreadRef>
        ensures seat { IfSome result (λ seat. IsSeatIn self.now seat) }
        ensures newest { option_map (λ seat. seat.thread) result ≡ newest_in channel item.now self.now }
    {
        match self.last_receiver(channel, item) {
            Some(seat) => Some(seat),
            None => Some(self.search_receiver(channel, item)?.1),
        }
    }

    /// Returns whether it is known without a search that no thread is blocked in a receive. A `false` says
    /// nothing.
    #[inline(always)]
    fn has_no_receiver(&self) -> bool
        ensures { result ≡ true → (channel : ℕ) → (item : Item) → newest_in channel item self.now ≡ None }
    {
        self.index.receivers.is_empty()
    }

    /// Takes the receive of the thread that `newest_receiver` finds, and returns it. The thread then isn't
    /// blocked. It gets this priority, or keeps its own if `priority` is `None`. If there is no such thread,
    /// returns `None` and changes nothing.
    #[inline(always)]
    pub fn wake_newest(
        &mut self,
        channel: ChannelId,
        item: &Item,
        priority: Option<Priority>,
    ) -> Option<OpenReceive>
        ensures nobody { IfNone result (newest_in channel item.now self.old ≡ None) }
        ensures unchanged { IfNone result (self.new ≡ self.old) }
        ensures newest { IfSome result
            (λ receive. newest_in channel item.now self.old ≡ Some receive.thread) }
        ensures had { IfSome result
            (λ receive. option_and_then receive_in (open_in self.old receive.thread) ≡ Some receive) }
        ensures after { IfSome result (λ receive. Wakes receive.thread priority self.old self.new) }
    {
        if self.has_no_receiver() {
            return None;
        }
        let receiver = self.newest_receiver(channel, item)?;
        self.wake(&receiver, priority)
    }
}
