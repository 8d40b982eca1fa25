//! A timeout by `Unblock`. A server holds a client's message, and another thread of the client's process
//! unblocks the client. The flags of the server's channel decide what happens.

ghost use Rattle.std.specs.Prelude.{◌≡◌, IfOk};
ghost use Rattle.balsaeuchre_examples.specs.ThreeThreads.{roster};
ghost use Rattle.balsaeuchre_examples.specs.Timeout.{begun, cut_events, told_events};
ghost use Rattle.balsaeuchre_examples.specs.Written.{IsRunOf};

use crate::three_threads::{CLIENT, FELLOW, SERVER, kernel_of_three, receive, reply, send};
use balsaeuchre::{
    Call, ChannelFlags, ChannelId, ConnectionId, Errno, ReceiveId, ThreadNo, Trace, run,
};
use std::alloc::Global;

/// Returns calls 1 to 4, after which the server holds message 3, and call 5, which is the timeout.
fn until_the_timeout(alloc: Global, flags: ChannelFlags) -> Result<Vec<(ThreadNo, Call)>, Errno>
    ensures { IfOk result (λ calls. calls.items ≡ begun flags) }
{
    let calls = vec![in alloc;
        (SERVER, Call::ChannelCreate(flags)),
        (CLIENT, Call::ConnectAttach(ChannelId(1))),
        (CLIENT, send(alloc)),
        (SERVER, receive(alloc)),
        (FELLOW, Call::Unblock(CLIENT)),
    ]?;
    Ok(calls)
}

/// The timeout without a flag: the Send fails at once with `Intr`, and the server's reply comes too late.
pub fn without_flag(alloc: Global) -> Result<Trace, Errno>
    ensures { IfOk result (λ trace. IsRunOf roster cut_events trace) }
{
    let mut kernel = kernel_of_three(alloc)?;
    let mut calls = until_the_timeout(alloc, ChannelFlags::of(0))?;
    calls.push((SERVER, reply(alloc)))?;
    Ok(run(&mut kernel, calls)?)
}

/// The timeout with the flag `UNBLOCK`: the client stays blocked, and the server gets a pulse that names the
/// message. The server replies with an error code of its own.
pub fn with_flag(alloc: Global) -> Result<Trace, Errno>
    ensures { IfOk result (λ trace. IsRunOf roster told_events trace) }
{
    let mut kernel = kernel_of_three(alloc)?;
    let mut calls = until_the_timeout(alloc, ChannelFlags::UNBLOCK)?;
    calls.push((SERVER, Call::ReceivePulse(ChannelId(1))))?;
    let error = Call::Error {
        rcvid: ReceiveId(3),
        code: 110,
    };
    calls.push((SERVER, error))?;
    Ok(run(&mut kernel, calls)?)
}
