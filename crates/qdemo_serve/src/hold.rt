//! The work of a server that holds the first message until it has received a second. So two clients have to
//! be blocked at the same time. This can't happen if each client runs to its end before the next begins.

use crate::fault::WorkerFault;
use crate::protocol::{COUNT, REQUEST_LENGTH};
use crate::server::{answer, serve_all};
use crate::work_counts::WorkCounts;
use balsaeuchre_calls::caller::Caller;
use balsaeuchre_calls::calls::Calls;
use balsaeuchre_calls::endpoint::Endpoint;
use balsaeuchre_calls::results::{Received, Request};
use crossbeam_utils::Backoff;
use qbase::ids::ChannelId;
use qqueue::item::What;
use std::sync::Wait;

/// The number of polls without a message after which a server that holds a message gives up: about a second.
const MOST_POLLS: u32 = 1_000_000;

/// Serves, but first holds a message. If it fails, it shuts the kernel down, which ends the whole
/// demonstration. `alarm` is another thread, which makes the Shutdown if the server's own receive is still
/// open.
pub fn holding_server<E: Endpoint, R: Wait>(
    caller: &mut Caller<E, R>,
    alarm: &mut Caller<E, R>,
    chid: ChannelId,
) -> Result<WorkCounts, WorkerFault> {
    let done = hold_and_serve(caller, chid);
    if done.is_err() && caller.shutdown().is_err() {
        let _ = alarm.shutdown();
    }
    done
}

/// Holds the first message until there is a second, replies to both in order, and continues like any server.
fn hold_and_serve<E: Endpoint, R: Wait>(
    caller: &mut Caller<E, R>,
    chid: ChannelId,
) -> Result<WorkCounts, WorkerFault> {
    let mut tally = WorkCounts::default();
    let first = next_request(caller, chid, false, &mut tally)?;
    let second = next_request(caller, chid, true, &mut tally)?;
    for request in [first, second] {
        answer(caller, &request)?;
        tally.count_answered();
    }
    Ok(tally.plus(serve_all(caller, chid)?))
}

/// Returns the next message. If there is none, it polls for it if `polling` is set, and otherwise waits.
fn next_request<E: Endpoint, R: Wait>(
    caller: &mut Caller<E, R>,
    chid: ChannelId,
    polling: bool,
    tally: &mut WorkCounts,
) -> Result<Request, WorkerFault> {
    let mut polls = MOST_POLLS;
    for _ in caller.rt().forever() {
        let item = if polling {
            poll_receive(caller, chid, &mut polls)?
        } else {
            caller.msg_receive(chid, REQUEST_LENGTH)?
        };
        if let Some(request) = request_in(item, tally)? {
            return Ok(request);
        }
    }
    unreachable!()
}

/// Returns a received message, or counts a pulse and returns `None`. A stop pulse is an error, since a
/// message is held.
fn request_in(item: Received, tally: &mut WorkCounts) -> Result<Option<Request>, WorkerFault> {
    match item {
        Received::Message(request) => Ok(Some(request)),
        Received::Pulse(pulse) if matches!(pulse.what, What::User { code: COUNT, .. }) => {
            tally.count_pulse();
            Ok(None)
        }
        Received::Pulse(_) => Err(WorkerFault::Unexpected),
    }
}

/// Receives a message or a pulse from a channel. If there is none, it polls at most `polls` times in all;
/// then the error is `Unexpected`.
fn poll_receive<E: Endpoint, R: Wait>(
    caller: &mut Caller<E, R>,
    chid: ChannelId,
    polls: &mut u32,
) -> Result<Received, WorkerFault> {
    if let Some(item) = caller.msg_receive_start(chid, REQUEST_LENGTH)? {
        return Ok(item);
    }
    let backoff = Backoff::new();
    'polling: while *polls > 0 {
        if let Some(item) = caller.msg_receive_poll()? {
            return Ok(item);
        }
        *polls -= 1;
        backoff.snooze();
    }
    Err(WorkerFault::Unexpected)
}
