//! The work of a client: it attaches, sends its messages one after another, and detaches.

use crate::fault::WorkerFault;
use crate::protocol::{CLIENT_LEVEL, COUNT, MESSAGE_LENGTH, REPLY_LENGTH, priority};
use crate::services::{ECHO, SUM};
use crate::work_counts::WorkCounts;
use balsaeuchre_calls::caller::Caller;
use balsaeuchre_calls::calls::Calls;
use balsaeuchre_calls::endpoint::Endpoint;
use balsaeuchre_calls::results::Reply;
use qbase::ids::ChannelId;
use std::sync::Wait;

/// The last byte of each message.
const LAST_BYTE: u8 = 7;

/// Makes a client's rounds. If it fails, it shuts the kernel down, which ends the whole demonstration.
pub fn client<E: Endpoint, R: Wait>(
    caller: &mut Caller<E, R>,
    chid: ChannelId,
    number: u8,
    rounds: u16,
) -> Result<WorkCounts, WorkerFault> {
    let work = make_rounds(caller, chid, number, rounds);
    caller.or_shutdown(work)
}

/// Attaches, sends a pulse and a message in each round, and detaches.
fn make_rounds<E: Endpoint, R: Wait>(
    caller: &mut Caller<E, R>,
    chid: ChannelId,
    number: u8,
    rounds: u16,
) -> Result<WorkCounts, WorkerFault> {
    let mut tally = WorkCounts::default();
    let coid = caller.connect_attach(chid)?;
    for round in 0..rounds {
        caller.msg_send_pulse(coid, priority(CLIENT_LEVEL), COUNT, i32::from(round))?;
        let message = message_of(number, round);
        let answer = caller.msg_send(coid, &message, REPLY_LENGTH)?;
        tally.count_sent(sum_in(&message, &answer)?);
    }
    caller.connect_detach(coid)?;
    Ok(tally)
}

/// Returns the message of a client's round: by turns for the echo service and for the sum service.
fn message_of(number: u8, round: u16) -> [u8; MESSAGE_LENGTH] {
    let low = (round % 256) as u8;
    let service = if (number ^ low) & 1 == 0 { ECHO } else { SUM };
    [service, number, low, LAST_BYTE]
}

/// Returns the number that a reply adds to the sums: 0 for an echo. The error is `Unexpected` if the reply
/// doesn't fit the message.
fn sum_in(message: &[u8; MESSAGE_LENGTH], answer: &Reply) -> Result<u64, WorkerFault> {
    let [service, number, low, last] = *message;
    let (sum, bytes, copied) = if service == SUM {
        let sum = u64::from(number) + u64::from(low) + u64::from(last);
        (sum, sum.to_be_bytes(), REPLY_LENGTH)
    } else {
        let echo = [service, number, low, last, 0, 0, 0, 0];
        (0, echo, MESSAGE_LENGTH)
    };
    if answer.status == 0
        && answer.copied == copied
        && answer.buffer.as_slice() == bytes.as_slice()
    {
        Ok(sum)
    } else {
        Err(WorkerFault::Unexpected)
    }
}
