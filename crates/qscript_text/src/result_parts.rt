//! The parts of a result, in the order in which a trace prints them.

ghost use Rattle.std.specs.Prelude.{◌≡◌, map, slice_get};
ghost use Rattle.std.specs.Option.{option_map};
ghost use Rattle.qscript_text.specs.ResultParts.{mark_words, part_word};

use ResultPart::{Copied, Counted, Id, Number, Process, Signed, Thread, Word};
use qbase::errno::word;
use qbase::priority::Priority;
use qbase::state::ThreadState;
use qmodel::call::{Info, Mark};
use qqueue::item::What;

/// The most parts of a result.
pub const MOST_PARTS: usize = 8;

/// A part of a result.
#[derive(Clone, Copy)]
pub enum ResultPart<'a> {
    Word(&'a str),
    /// A status, a code or a value.
    Signed(i64),
    /// A priority or a length.
    Number(u64),
    /// A channel, a connection, a message or a pulse.
    Id(u64),
    Thread(u8),
    Process(u8),
    /// The number of bytes that were copied into the buffer.
    Copied(usize),
    /// The number of bytes that a Read or a Write copied.
    Counted(usize),
}

impl ResultPart<'_> {
    /// Returns the number of the part, if it has one.
    pub fn number(self) -> Option<i128> {
        match self {
            Word(_) => None,
            Signed(number) => Some(i128::from(number)),
            Number(number) | Id(number) => Some(i128::from(number)),
            Thread(number) | Process(number) => Some(i128::from(number)),
            Copied(count) | Counted(count) => Some(count as i128),
        }
    }
}

/// Returns the part at an index of these parts.
#[tactic(auto, using(crate::proofs::ResultWords::nth_word))]
fn nth<'a>(parts: &[ResultPart<'a>], at: usize) -> Option<ResultPart<'a>>
    ensures { option_map part_word result ≡ slice_get (map part_word parts.now) at }
{
    match parts.get(at) {
        Some(part) => Some(*part),
        None => None,
    }
}

/// Returns the part of a result at an index, or `None` if the result has fewer parts.
#[tactic(auto, unfolding(crate::specs::ResultParts::mark_words))]
pub fn part_at<'a>(mark: Mark, at: usize) -> Option<ResultPart<'a>>
    ensures { option_map part_word result ≡ slice_get (mark_words mark) at }
{
    match mark {
        Mark::Ok => {
            let parts = [Word("ok")];
            nth(&parts, at)
        }
        Mark::Failed(errno) => nth(&[Word("fail"), Word(word(errno))], at),
        Mark::Channel(chid) => nth(&[Word("channel"), Id(chid.0)], at),
        Mark::Connection(coid) => nth(&[Word("connection"), Id(coid.0)], at),
        Mark::Replied { status, copied } => {
            nth(&[Word("reply"), Signed(status), Copied(copied)], at)
        }
        Mark::Message { rcvid, copied } => {
            nth(&[Word("message"), Id(rcvid.0), Copied(copied)], at)
        }
        Mark::Errored(code) => nth(&[Word("error"), Signed(i64::from(code))], at),
        Mark::Count(count) => nth(&[Word("count"), Counted(count)], at),
        Mark::Info(info) => info_part(info, at),
        Mark::Pulse {
            item,
            priority,
            what,
        } => pulse_part(item, priority, what, at),
        Mark::State { state, priority } => state_part(state, priority, at),
    }
}

/// Returns a part of the data of a held message.
#[tactic(auto, unfolding(crate::specs::ResultParts::mark_words))]
fn info_part<'a>(info: Info, at: usize) -> Option<ResultPart<'a>>
    ensures { option_map part_word result ≡ slice_get (mark_words (Mark.Info info)) at }
{
    let parts = [
        Word("info"),
        Process(info.process.0),
        Thread(info.thread.0),
        Id(info.connection.0),
        Number(info.msglen as u64),
        Number(info.srcmsglen as u64),
        Number(info.dstmsglen as u64),
        Number(u64::from(info.priority.get())),
    ];
    nth(&parts, at)
}

/// Returns a part of a received pulse. `What::Message` is never the content of a pulse.
#[tactic(auto, unfolding(crate::specs::ResultParts::mark_words))]
fn pulse_part<'a>(item: u64, priority: Priority, what: What, at: usize) -> Option<ResultPart<'a>>
    ensures { option_map part_word result ≡ slice_get (mark_words (Mark.Pulse item priority what)) at }
{
    let (kind, id) = (Word("pulse"), Id(item));
    let level = Number(u64::from(priority.get()));
    match what {
        What::Message => nth(&[kind, id, level], at),
        What::User { code, value } => {
            let (code, value) = (Signed(i64::from(code)), Signed(i64::from(value)));
            nth(&[kind, id, level, Word("user"), code, value], at)
        }
        What::Unblock(rcvid) => nth(&[kind, id, level, Word("unblock"), Id(rcvid.0)], at),
        What::Disconnect(process) => {
            nth(
                &[kind, id, level, Word("disconnect"), Process(process.0)],
                at,
            )
        }
    }
}

/// Returns a part of the state of a thread.
#[tactic(auto, unfolding(crate::specs::ResultParts::mark_words))]
fn state_part<'a>(state: ThreadState, priority: Priority, at: usize) -> Option<ResultPart<'a>>
    ensures { option_map part_word result ≡ slice_get (mark_words (Mark.State state priority)) at }
{
    let kind = Word("state");
    let level = Number(u64::from(priority.get()));
    match state {
        ThreadState::Ready => nth(&[kind, Word("ready"), level], at),
        ThreadState::SendBlocked(chid) => nth(&[kind, Word("send"), Id(chid.0), level], at),
        ThreadState::ReceiveBlocked(chid) => nth(&[kind, Word("receive"), Id(chid.0), level], at),
        ThreadState::ReplyBlocked(chid) => nth(&[kind, Word("reply"), Id(chid.0), level], at),
    }
}
