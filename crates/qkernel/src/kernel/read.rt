//! The calls `Read` and `Write`.

use super::Kernel;
use super::call_context::CallContext;
use qbase::bytes::Bytes;
use qbase::errno::Errno;
use qbase::ids::ReceiveId;
use qkernel_state::completions::{Completions, put};
use qmodel::call::{Call, Mark};

impl Kernel {
    ghost use Rattle.qkernel.specs.Private.Caller.{MayCall, Makes, MakesOrRefuses};

    /// Copies bytes of a held message, beginning at an offset, to the front of the buffer. An offset at or
    /// past the message's end copies nothing. Changes nothing, never blocks, and takes no memory.
    pub(super) fn read(
        &mut self,
        caller: &CallContext,
        rcvid: ReceiveId,
        offset: usize,
        buffer: Bytes,
        completions: &mut Completions,
    )
        requires { MayCall self.old caller.now completions.old.items }
        ensures { Makes self.old caller.now (Call.Read rcvid offset buffer) completions.new.items self.new }
    {
        let message = match self.objects.held_message(caller.process, rcvid) {
            Ok(message) => message,
            Err(errno) => return caller.refuse(completions, errno, buffer),
        };
        let mut buffer = buffer;
        let copied = buffer.take(message, offset);
        put(
            completions,
            caller.completion_with(Mark::Count(copied), buffer),
        );
    }

    /// Copies bytes into the reply buffer of a held message's sender, beginning at an offset. The sender
    /// stays blocked. An offset at or past the buffer's end copies nothing. Never blocks, and takes no
    /// memory.
    pub(super) fn write(
        &mut self,
        caller: &CallContext,
        rcvid: ReceiveId,
        offset: usize,
        bytes: &[u8],
        completions: &mut Completions,
    ) -> Result<(), Errno>
        requires { MayCall self.old caller.now completions.old.items }
        ensures { MakesOrRefuses self.old caller.now
            (Call.Write rcvid offset bytes.now) result completions.new.items self.new }
    {
        let holder = self.objects.holder(caller.process, rcvid)?;
        let copied = self.objects.threads.write_sent(&holder, offset, bytes);
        put(completions, caller.completion(Mark::Count(copied)));
        Ok(())
    }
}
