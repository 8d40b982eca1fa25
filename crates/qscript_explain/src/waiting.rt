//! Unproved: words and layout. Finds which threads wait for which, and the deadlocks among them.

use crate::history::CallHistory;
use qbase::ids::{ProcessNo, ThreadNo};
use qbase::state::ThreadState;
use qkernel::kernel::Kernel;
use qkernel::open_call::Blocked;
use qscript_names::context::Context;
use std::alloc::{AllocError, Global};

/// A thread whose message has no reply yet.
#[derive(Clone, Copy, PartialEq, Eq)]
pub struct Wait {
    pub thread: ThreadNo,
    /// The number of its message.
    pub message: u64,
    /// The process of the channel. Each of its threads may receive the message and reply to it.
    pub server: ProcessNo,
    /// The thread that it waits for: the message's receiver, or the first thread of the process that may
    /// receive it.
    pub on: ThreadNo,
    /// Whether the message is received.
    pub is_held: bool,
    /// Whether another thread of that process may receive it.
    pub has_others: bool,
}

impl Wait {
    /// Returns `THREAD waits for THREAD: message MESSAGE isn't received`.
    pub fn words(&self, names: Context<'_>) -> Result<String, AllocError> {
        let (thread, on) = (names.thread(self.thread), names.thread(self.on));
        let message = names.id(self.message);
        let (others, lack) = match (self.is_held, self.has_others) {
            (true, _) => ("", "has no reply"),
            (false, true) => (" or another thread of its process", "isn't received"),
            (false, false) => ("", "isn't received"),
        };
        format!(in names.alloc; "{thread} waits for {on}{others}: message {message} {lack}")
    }
}

/// Threads that wait for one another in a circle, beginning with the least. No other thread can reply to any
/// of them.
#[derive(Drop)]
pub struct Deadlock {
    waits: Vec<Wait>,
}

impl Deadlock {
    /// Returns `deadlock: THREAD waits for THREAD, ..`.
    pub fn words(&self, names: Context<'_>) -> Result<String, AllocError> {
        let mut words = String::new(names.alloc);
        let mut between = "deadlock: ";
        for wait in &self.waits {
            let (thread, on) = (names.thread(wait.thread), names.thread(wait.on));
            write!(words, "{between}{thread} waits for {on}")?;
            between = ", ";
        }
        Ok(words)
    }

    /// Returns the threads of the circle, each with the thread that it waits for.
    pub fn waits(&self) -> &[Wait] {
        self.waits.as_slice()
    }
}

/// Returns the threads whose messages have no reply, by rising number. The kernel must be as it is after this
/// history. The threads in `ended` make no more calls.
pub fn waits(
    alloc: Global,
    kernel: &Kernel,
    history: &CallHistory,
    ended: &[ThreadNo],
) -> Result<Vec<Wait>, AllocError> {
    let mut waits = Vec::new(alloc);
    for blocked in &kernel.blocked(alloc)? {
        if let Some(wait) = wait_of(kernel, history, blocked, ended) {
            waits.push(wait)?;
        }
    }
    Ok(waits)
}

/// Returns the wait of a blocked thread, if it is blocked in a send.
fn wait_of(
    kernel: &Kernel,
    history: &CallHistory,
    blocked: &Blocked,
    ended: &[ThreadNo],
) -> Option<Wait> {
    let (chid, is_held) = match blocked.state {
        ThreadState::SendBlocked(chid) => (chid, false),
        ThreadState::ReplyBlocked(chid) => (chid, true),
        _ => return None,
    };
    let server = kernel.channels().get(chid)?.owner;
    let (threads, more) = (kernel.threads().iter(), kernel.threads().iter());
    let mut members = threads.filter(|thread| thread.member.process == server);
    let mut receivers = more.filter(|thread| {
        thread.member.process == server && !ended.contains(&thread.member.thread)
    });
    let first = receivers.next().or(members.next())?;
    let on = history.receiver_of(blocked.number);
    Some(Wait {
        thread: blocked.thread,
        message: blocked.number,
        server,
        on: on.unwrap_or(first.member.thread),
        is_held,
        has_others: receivers.next().is_some(),
    })
}

/// Returns whether each thread of a process has ended or is in one of these waits.
fn is_blocked(kernel: &Kernel, waits: &[Wait], process: ProcessNo, ended: &[ThreadNo]) -> bool {
    let threads = kernel.threads().iter();
    let mut of = threads.filter(|thread| thread.member.process == process);
    of.all(|thread| {
        let thread = thread.member.thread;
        ended.contains(&thread) || waits.iter().any(|wait| wait.thread == thread)
    })
}

/// Returns the waits that no thread can end. Each is for a process whose threads have ended or are in such a
/// wait.
fn hopeless(
    alloc: Global,
    kernel: &Kernel,
    waits: &[Wait],
    ended: &[ThreadNo],
) -> Result<Vec<Wait>, AllocError> {
    let mut left = Vec::from_slice(alloc, waits)?;
    for _ in 0..waits.len() {
        let mut next = Vec::new(alloc);
        for wait in &left {
            if is_blocked(kernel, left.as_slice(), wait.server, ended) {
                next.push(*wait)?;
            }
        }
        left = next;
    }
    Ok(left)
}

/// Returns the deadlock that begins with a thread's wait, if the thread is the least in one.
fn circle_from(alloc: Global, waits: &[Wait], first: Wait) -> Result<Option<Deadlock>, AllocError> {
    let mut circle = Vec::new(alloc);
    let mut wait = first;
    for _ in 0..waits.len() {
        circle.push(wait)?;
        if wait.on == first.thread {
            return Ok(Some(Deadlock { waits: circle }));
        }
        match waits.iter().find(|other| other.thread == wait.on) {
            Some(next) if next.thread.0 > first.thread.0 => wait = *next,
            _ => return Ok(None),
        }
    }
    Ok(None)
}

/// Returns the deadlocks among these waits, in the order of their least threads. No thread in them can get a
/// reply, even if a process has several threads. The threads in `ended` make no more calls.
pub fn deadlocks(
    alloc: Global,
    kernel: &Kernel,
    waits: &[Wait],
    ended: &[ThreadNo],
) -> Result<Vec<Deadlock>, AllocError> {
    let hopeless = hopeless(alloc, kernel, waits, ended)?;
    let mut deadlocks = Vec::new(alloc);
    for wait in &hopeless {
        if let Some(deadlock) = circle_from(alloc, hopeless.as_slice(), *wait)? {
            deadlocks.push(deadlock)?;
        }
    }
    Ok(deadlocks)
}
