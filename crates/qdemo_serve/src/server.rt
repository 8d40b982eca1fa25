//! The work of a server: it receives and replies until a pulse stops it. Several servers may receive on the
//! main channel.

use crate::fault::WorkerFault;
use crate::protocol::{COUNT, REQUEST_LENGTH, STOP};
use crate::services::{ServiceOutcome, serve_one};
use crate::work_counts::WorkCounts;
use balsaeuchre_calls::caller::Caller;
use balsaeuchre_calls::calls::Calls;
use balsaeuchre_calls::endpoint::Endpoint;
use balsaeuchre_calls::error::CallError;
use balsaeuchre_calls::results::{Received, Request};
use qbase::ids::ChannelId;
use qqueue::item::What;
use std::sync::Wait;

/// Serves until the stop pulse comes. If it fails, it shuts the kernel down, which ends the whole
/// demonstration.
pub fn server<E: Endpoint, R: Wait>(
    caller: &mut Caller<E, R>,
    chid: ChannelId,
) -> Result<WorkCounts, WorkerFault> {
    let work = serve_all(caller, chid);
    caller.or_shutdown(work)
}

/// Receives and replies until the stop pulse comes. A pulse that is neither counted nor the stop pulse is the
/// error `Unexpected`.
pub fn serve_all<E: Endpoint, R: Wait>(
    caller: &mut Caller<E, R>,
    chid: ChannelId,
) -> Result<WorkCounts, WorkerFault> {
    let mut tally = WorkCounts::default();
    for _ in caller.rt().forever() {
        let pulse = match caller.msg_receive(chid, REQUEST_LENGTH)? {
            Received::Message(request) => {
                answer(caller, &request)?;
                tally.count_answered();
                continue;
            }
            Received::Pulse(pulse) => pulse,
        };
        match pulse.what {
            What::User { code: COUNT, .. } => tally.count_pulse(),
            What::User { code: STOP, .. } => return Ok(tally),
            _ => return Err(WorkerFault::Unexpected),
        }
    }
    unreachable!()
}

/// Replies to a message as its service does.
pub fn answer<E: Endpoint, R: Wait>(
    caller: &mut Caller<E, R>,
    request: &Request,
) -> Result<(), CallError> {
    let message = request.bytes();
    let outcome = serve_one(message);
    let bytes: &[u8] = match &outcome {
        ServiceOutcome::Same => message,
        ServiceOutcome::Bytes(bytes) => bytes,
        ServiceOutcome::Error(code) => return caller.msg_error(request.rcvid, *code),
    };
    caller.msg_reply(request.rcvid, 0, bytes)
}
