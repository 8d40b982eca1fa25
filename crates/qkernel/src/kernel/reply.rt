//! The calls `Reply` and `Error`.

ghost use Rattle.std.specs.Prelude.{◌≡◌};
ghost use Rattle.qrules.specs.Records.{error_mark};
ghost use Rattle.qbase.specs.Copying.{laid_count, lay_over};

use super::Kernel;
use super::call_context::CallContext;
use qbase::errno::Errno;
use qbase::ids::ReceiveId;
use qkernel_state::completions::{Completions, put};
use qmodel::call::{Call, Completion, Mark};
use qmodel::open_call::OpenSend;

/// Returns the completion of a Send that gets a reply: the bytes are copied to the front of its reply buffer.
fn reply_completion(sent: OpenSend, status: i64, bytes: &[u8]) -> Completion
    ensures { result ≡ record {
      call = sent.number;
      thread = sent.thread;
      mark = Mark.Replied status (laid_count sent.reply_buffer 0 bytes.now);
      buffer = lay_over sent.reply_buffer 0 bytes.now;
    } }
{
    let mut sent = sent;
    let copied = sent.reply_buffer.lay(0, bytes);
    sent.completion(Mark::Replied { status, copied })
}

/// Returns the result of the sender's call. Under Balsaeuchre's own rule, the code 0 is a reply of status 0
/// with no bytes.
fn error_mark(code: i32) -> Mark
    ensures { result ≡ error_mark code }
{
    if code == 0 {
        Mark::Replied {
            status: 0,
            copied: 0,
        }
    } else {
        Mark::Errored(code)
    }
}

impl Kernel {
    ghost use Rattle.qkernel.specs.Private.Caller.{MayCall, MakesOrRefuses};

    /// Replies to a held message, which completes its sender's Send. Never blocks, and takes no memory.
    pub(super) fn reply(
        &mut self,
        caller: &CallContext,
        rcvid: ReceiveId,
        status: i64,
        bytes: &[u8],
        completions: &mut Completions,
    ) -> Result<(), Errno>
        requires { MayCall self.old caller.now completions.old.items }
        ensures { MakesOrRefuses self.old caller.now
            (Call.Reply rcvid status bytes.now) result completions.new.items self.new }
    {
        let mut sent = self.objects.take_held(caller.process, rcvid)?;
        put(completions, caller.completion_taking(&mut sent.message));
        put(completions, reply_completion(sent, status, bytes));
        Ok(())
    }

    /// Replies to a held message with an error code and no bytes, which completes its sender's Send. Never
    /// blocks, and takes no memory.
    pub(super) fn error(
        &mut self,
        caller: &CallContext,
        rcvid: ReceiveId,
        code: i32,
        completions: &mut Completions,
    ) -> Result<(), Errno>
        requires { MayCall self.old caller.now completions.old.items }
        ensures { MakesOrRefuses self.old caller.now
            (Call.Error rcvid code) result completions.new.items self.new }
    {
        let mut sent = self.objects.take_held(caller.process, rcvid)?;
        put(completions, caller.completion_taking(&mut sent.message));
        put(completions, sent.completion(error_mark(code)));
        Ok(())
    }
}
