//! A clean shutdown. The server replies to the message that it holds, and destroys its channel, which cancels
//! the calls that are blocked on it. The client detaches, and the kernel is shut down. No thread is blocked
//! then, and a later call is refused.

ghost use Rattle.std.specs.Prelude.{IfOk};
ghost use Rattle.balsaeuchre_examples.specs.ShutDown.{events};
ghost use Rattle.balsaeuchre_examples.specs.ThreeThreads.{roster};
ghost use Rattle.balsaeuchre_examples.specs.Written.{IsRunOf};

use crate::three_threads::{CLIENT, FELLOW, SERVER, kernel_of_three, receive, reply, send};
use balsaeuchre::{Call, ChannelFlags, ChannelId, ConnectionId, Errno, Trace, run};
use std::alloc::Global;

/// Shuts down while the server holds one client's message and another client's message is queued.
pub fn shut_down(alloc: Global) -> Result<Trace, Errno>
    ensures { IfOk result (λ trace. IsRunOf roster events trace) }
{
    let mut kernel = kernel_of_three(alloc)?;
    let calls = vec![in alloc;
        (SERVER, Call::ChannelCreate(ChannelFlags::of(0))),
        (CLIENT, Call::ConnectAttach(ChannelId(1))),
        (CLIENT, send(alloc)),
        (SERVER, receive(alloc)),
        (FELLOW, send(alloc)),
        (SERVER, reply(alloc)),
        (SERVER, Call::ChannelDestroy(ChannelId(1))),
        (CLIENT, Call::ConnectDetach(ConnectionId(2))),
        (SERVER, Call::Shutdown),
        (CLIENT, send(alloc)),
    ]?;
    Ok(run(&mut kernel, calls)?)
}
