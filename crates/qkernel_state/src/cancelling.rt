//! Cancels open calls: they complete with an error because of another thread's call.

ghost use Rattle.std.specs.Prelude.{◌≡◌, ◌==◌, ◌&&◌, ◌≤◌, ◌<◌, [], true, Some, None, is_some, length};
ghost use Rattle.std.specs.Prelude.{filter_map, map, if◌then◌else◌};
ghost use Rattle.qtables.specs.Members.{IsRoster};
ghost use Rattle.qrules.specs.Delivery.{is_on, cancel_call, cancel_where};
ghost use Rattle.qrules.specs.Records.{is_unread_send};
ghost use Rattle.qrules.specs.Facts.{threads_of};
ghost use Rattle.qkernel_state.specs.Cancelling.{is_cancelled_by, completion_for, with_completion};
ghost use Rattle.qkernel_state.specs.Cancelling.{thread_after_cancelled, thread_unless_cancelled};
ghost use Rattle.qkernel_state.specs.Cancelling.{unread_on_by, call_if_cancelled, is_taken_from, Lose};
ghost use Rattle.qkernel_state.specs.Cancelling.{AreCancelled, LoseCancelled};
ghost use Rattle.qkernel_state.specs.Thread.{open_in};
ghost use Rattle.qkernel_state.specs.Contents.{members_of};

use crate::channel::Channel;
use crate::completions::Completions;
use crate::objects::Objects;
use crate::thread::Thread;
use qbase::errno::Errno;
use qbase::ids::{ChannelId, ConnectionId, ThreadNo};
use qmodel::call::{Completion, Mark};
use qmodel::open_call::OpenCall;
use qtables::channels::Channels;

/// A set of open calls to cancel.
#[derive(Clone, Copy, Debug, PartialEq, Eq)]
pub enum CancelSet {
    /// All calls that are blocked on this channel: Sends, received or not, and receives.
    On(ChannelId),
    /// All open calls.
    All,
    /// The open call of this thread.
    Of(ThreadNo),
    /// All Sends over this connection, received or not.
    Over(ConnectionId),
}

/// A set of open calls to cancel, and the error with which each completes.
#[derive(Clone, Copy)]
struct Cancellation {
    set: CancelSet,
    errno: Errno,
}

/// Returns whether a call is blocked on the channel.
fn is_on(chid: ChannelId, call: &OpenCall) -> bool
    ensures { result ≡ is_on chid call.now }
{
    match call {
        OpenCall::Send(send) => send.channel == chid,
        OpenCall::Receive(receive) => receive.channel == chid,
    }
}

/// Returns whether the open call of a thread is in the set.
fn is_cancelled(cancel: &CancelSet, thread: ThreadNo, call: &OpenCall) -> bool
    ensures { result ≡ is_cancelled_by cancel.now thread call.now }
{
    match cancel {
        CancelSet::On(chid) => is_on(*chid, call),
        CancelSet::All => true,
        CancelSet::Of(named) => thread == *named,
        CancelSet::Over(coid) => match call {
            OpenCall::Send(send) => send.connection == *coid,
            OpenCall::Receive(_) => false,
        },
    }
}

/// Returns the channel on which the message of a Send is queued. Returns `None` if the message is received,
/// or if the call isn't a Send.
fn unread_on(call: &OpenCall) -> Option<ChannelId>
    ensures { result ≡ unread_on_by call.now }
{
    let send = call.send()?;
    if send.receipt.is_some() {
        None
    } else {
        Some(send.channel)
    }
}

/// Removes the message of a Send from its channel's queue. `key` is the message's key there. Does nothing if
/// the message is received, or if the call isn't a Send.
fn take_message(channels: &mut Channels<Channel>, call: &OpenCall, key: usize)
    ensures { Lose (λ h i. is_unread_send h i (Some call.now)) channels.old channels.new }
{
    let Some(chid) = unread_on(call) else {
        return;
    };
    let Some(channel) = channels.get_mut(chid) else {
        return;
    };
    let _ = channel.queue.remove(call.number(), key);
}

/// Returns the completion of a thread's cancelled call. Its result is the error, and it returns the call's
/// buffer.
fn cancel_completion(call: OpenCall, thread: ThreadNo, errno: Errno) -> Completion
    ensures { result ≡ cancel_call errno thread call }
{
    Completion {
        call: call.number(),
        thread,
        mark: Mark::Failed(errno),
        buffer: call.into_buffer(),
    }
}

/// Takes the thread's open call and returns it, if the call is in the set.
fn take_cancelled(thread: &mut Thread, cancel: &CancelSet) -> Option<OpenCall>
    ensures had { result ≡ call_if_cancelled
        (is_cancelled_by cancel.now thread.old.member.thread) thread.old.open_call }
    ensures after { thread.new ≡ thread_unless_cancelled
        (is_cancelled_by cancel.now thread.old.member.thread) thread.old }
{
    match &thread.open_call {
        Some(call) if is_cancelled(cancel, thread.member.thread, call) => {
            thread.open_call.take()
        }
        _ => None,
    }
}

/// Cancels the thread's open call and returns its completion, if the call is in the set.
fn cancel_thread(
    thread: &mut Thread,
    channels: &mut Channels<Channel>,
    cancel: &Cancellation,
) -> Option<Completion>
    ensures completion { result ≡ cancel_where (is_cancelled_by cancel.now.set thread.old.member.thread)
        cancel.now.errno thread.old.member.thread thread.old.open_call }
    ensures thread { thread.new ≡ thread_unless_cancelled
        (is_cancelled_by cancel.now.set thread.old.member.thread) thread.old }
    ensures channels { Lose (is_taken_from (is_cancelled_by cancel.now.set thread.old.member.thread)
        thread.old.open_call) channels.old channels.new }
{
    let call = take_cancelled(thread, &cancel.set)?;
    take_message(channels, &call, thread.key);
    Some(cancel_completion(call, thread.member.thread, cancel.errno))
}

/// Takes and returns `own`, the completion of the caller's call, if the thread is the caller. Otherwise does
/// what `cancel_thread` does.
fn end_thread(
    thread: &mut Thread,
    channels: &mut Channels<Channel>,
    cancel: &Cancellation,
    caller: ThreadNo,
    own: &mut Option<Completion>,
) -> Option<Completion>
    requires idle { (thread.old.member.thread == caller) ≡ true → thread.old.open_call ≡ None }
    ensures completion { result
        ≡ (if thread.old.member.thread == caller then own.old else cancel_where
        (is_cancelled_by cancel.now.set thread.old.member.thread) cancel.now.errno thread.old.member.thread
        thread.old.open_call) }
    ensures own { own.new ≡ (if thread.old.member.thread == caller then None else own.old) }
    ensures thread { thread.new ≡ thread_unless_cancelled
        (is_cancelled_by cancel.now.set thread.old.member.thread) thread.old }
    ensures channels { Lose (is_taken_from (is_cancelled_by cancel.now.set thread.old.member.thread)
        thread.old.open_call) channels.old channels.new }
{
    if thread.member.thread == caller {
        own.take()
    } else {
        cancel_thread(thread, channels, cancel)
    }
}

/// Appends a completion to the list, if there is one.
fn push_completion(completions: &mut Completions, completion: Option<Completion>)
    requires { length completions.old.items < 64 }
    ensures { completions.new.items ≡ with_completion completions.old.items completion }
{
    if let Some(completion) = completion {
        completions.push(completion);
    }
}

/// Cancels each open call of the set. The list gets the completions in ascending order of thread number, with
/// `own`, the completion of the caller's call, among them.
fn cancel_each(
    threads: &mut Vec<Thread>,
    channels: &mut Channels<Channel>,
    cancel: Cancellation,
    own: Completion,
    completions: &mut Completions,
)
    requires roster { IsRoster (members_of threads.old.items) }
    requires few { length threads.old.items ≤ 64 }
    requires idle { open_in threads.old.items own.thread ≡ None }
    requires none { completions.old.items ≡ [] }
    ensures completions { completions.new.items ≡ filter_map
        (λ u. completion_for cancel.set cancel.errno own u (open_in threads.old.items u))
        (threads_of (members_of threads.old.items)) }
    ensures threads { threads.new.items ≡ map (thread_after_cancelled cancel.set) threads.old.items }
    ensures channels { LoseCancelled cancel.set cancel.errno threads.old.items channels.old channels.new }
{
    let caller = own.thread;
    let mut left = Some(own);
    for thread in threads.iter_mut() {
        let completion = end_thread(thread, channels, &cancel, caller, &mut left);
        push_completion(completions, completion);
    }
}

impl Objects {
    /// Cancels each open call of a set with this error. The list gets the completions in ascending order of
    /// thread number, with `own`, the completion of the caller's call, among them. A message that isn't
    /// received when its Send is cancelled leaves its channel's queue.
    pub fn cancel(
        &mut self,
        set: CancelSet,
        errno: Errno,
        own: Completion,
        completions: &mut Completions,
    )
        requires idle { open_in self.old.threads own.thread ≡ None }
        requires none { completions.old.items ≡ [] }
        ensures completions { completions.new.items ≡ filter_map
            (λ u. completion_for set errno own u (open_in self.old.threads u))
            (threads_of (members_of self.old.threads)) }
        ensures threads { AreCancelled set errno self.old.threads self.new.threads }
        ensures channels { LoseCancelled set errno self.old.threads self.old.channels self.new.channels }
        ensures connections { self.new.connections ≡ self.old.connections }
    {
        let threads = &mut self.threads;
        let records = &mut threads.records;
        let channels = &mut self.channels;
        let cancel = Cancellation { set, errno };
        cancel_each(records, channels, cancel, own, completions);
    }
}
