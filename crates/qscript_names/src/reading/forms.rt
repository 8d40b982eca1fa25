//! The forms of results: the words of each kind of result, and the parts that a pattern may have after them.
//! The patterns of scripts with names and of designs have these forms.

use crate::line::LineKind;
use qexplore_programs::pattern::ResultKind;
use qscript_text::lexing::token::Token;

/// A part of a pattern after the words of the result.
#[derive(Clone, Copy)]
pub enum Part {
    /// The word of an error.
    Errno,
    /// The name or the number of an object.
    Id(LineKind),
    /// The name or the number of a process.
    Process,
    /// A number, with or without a minus sign.
    Number,
    /// The copied bytes: how many, and which.
    Content,
    /// The bytes that the buffer begins with.
    Buffer,
}

/// The form of a pattern after its words.
#[derive(Clone, Copy)]
pub struct ResultForm {
    /// The kind of the result. `None` if the call doesn't complete.
    pub kind: Option<ResultKind>,
    /// The parts of this kind. The last ones may be left out.
    pub parts: &'static [Part],
}

const CHANNEL: Part = Part::Id(LineKind::Channel);

const CONNECTION: Part = Part::Id(LineKind::Connection);

const MESSAGE: Part = Part::Id(LineKind::Message);

const PULSE: Part = Part::Id(LineKind::Pulse);

const THREAD: Part = Part::Id(LineKind::Thread);

const NUMBER: Part = Part::Number;

/// Words, the kind of result that each of them names, and the parts of this kind.
pub type FormTable = &'static [(&'static str, Option<ResultKind>, &'static [Part])];

/// The first words of results. The content of a pulse and the state of a thread have their own tables.
pub static FORMS: [(&str, Option<ResultKind>, &[Part]); 12] = [
    ("ok", Some(ResultKind::Ok), &[]),
    ("fail", Some(ResultKind::Failed(None)), &[Part::Errno]),
    ("blocked", None, &[]),
    ("channel", Some(ResultKind::Channel), &[CHANNEL]),
    ("connection", Some(ResultKind::Connection), &[CONNECTION]),
    ("message", Some(ResultKind::Message), &[Part::Content]),
    ("pulse", Some(ResultKind::Pulse), &[]),
    ("reply", Some(ResultKind::Replied), &[NUMBER, Part::Content]),
    ("error", Some(ResultKind::Errored), &[NUMBER]),
    ("count", Some(ResultKind::Count), &[NUMBER, Part::Buffer]),
    ("state", Some(ResultKind::State), &[]),
    (
        "info",
        Some(ResultKind::Info),
        &[
            Part::Process,
            THREAD,
            CONNECTION,
            NUMBER,
            NUMBER,
            NUMBER,
            NUMBER,
        ],
    ),
];

/// The contents of a pulse.
pub static PULSES: [(&str, Option<ResultKind>, &[Part]); 3] = [
    ("user", Some(ResultKind::UserPulse), &[NUMBER, NUMBER]),
    ("unblock", Some(ResultKind::UnblockPulse), &[MESSAGE]),
    (
        "disconnect",
        Some(ResultKind::DisconnectPulse),
        &[Part::Process],
    ),
];

/// The states of a thread.
pub static STATES: [(&str, Option<ResultKind>, &[Part]); 4] = [
    ("ready", Some(ResultKind::Ready), &[NUMBER]),
    ("send", Some(ResultKind::SendBlocked), &[CHANNEL, NUMBER]),
    (
        "receive",
        Some(ResultKind::ReceiveBlocked),
        &[CHANNEL, NUMBER],
    ),
    ("reply", Some(ResultKind::ReplyBlocked), &[CHANNEL, NUMBER]),
];

/// The parts of a message that the kind `Message` doesn't have: its id.
pub static MESSAGE_HEAD: [Part; 1] = [MESSAGE];

/// The parts of a pulse that its kind doesn't have: the call that sent it, and its priority.
pub static PULSE_HEAD: [Part; 2] = [PULSE, NUMBER];

/// Returns the form of a table that this word names.
pub fn form_of(table: FormTable, token: &Token<'_>) -> Option<ResultForm> {
    let mut forms = table.iter().copied();
    let (_, kind, parts) = forms.find(|(word, _, _)| token.is_word(word))?;
    Some(ResultForm { kind, parts })
}
