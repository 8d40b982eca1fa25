//! Makes a call of a port for C.

ghost use Rattle.std.specs.Prelude.{◌≡◌, Some, IfOk, IfErr, MatchResult};
ghost use Rattle.qshared.specs.Desks.{IsPortOf, IsSamePort, names_in};
ghost use Rattle.qshared.specs.UnderLock.{IsSameKernel};
ghost use Rattle.balsaeuchre_c.specs.Ports.{IsPortEvent, IsUncalled, PortCallError};
ghost use Rattle.balsaeuchre_c.specs.Requests.{call_of, IsRefusedAs};

use crate::kind::kind_of;
use crate::ports::library_desk::LibraryDesk;
use crate::ports::library_port::LibraryPort;
use crate::request::CallRequest;
use crate::row::Row;
use crate::write_rows::tell_one;
use qbase::errno::Errno;
use qmodel::call::Call;
use qshared::called::Called;
use qshared::ghost_history::GhostHistory;
use qshared::opener::Once;
use std::alloc::Global;

/// The answer to a call of a port.
#[repr(C)]
#[derive(Clone, Copy)]
pub struct PortAnswer {
    /// The bit of each other thread for which a completion was put. The bit's index is the index of the
    /// thread's port.
    pub woken: u64,
    /// The number of the call; the first call of a kernel is 1.
    pub call: u64,
    /// 1 if the call is completed, and 0 if its thread is blocked.
    pub ended: u8,
    /// The completion of a completed call.
    pub row: Row,
}

/// Returns the call of a request.
fn call_for(
    port: &mut LibraryPort,
    alloc: Global,
    request: &CallRequest,
    sent: &[u8],
    room: &[u8],
) -> Result<Call, Errno>
    ensures call { MatchResult result
        (λ call. call_of request.now sent.now room.now ≡ Some call)
        (IsRefusedAs (call_of request.now sent.now room.now)) }
    ensures same { (port.new.core ≡ port.old.core) × (port.new.cells ≡ port.old.cells) }
{
    let Some(kind) = kind_of(request.kind) else {
        return Err(Errno::Inval);
    };
    request.call_as(kind, alloc, &mut port.spares, sent, room)
}

/// Makes the call of a request. It is the call of the port's thread. Fails like `CallRequest::call_as`, or
/// with the error of a refused call.
pub fn call(
    desk: &mut LibraryDesk,
    port: &mut LibraryPort,
    request: &CallRequest,
    sent: &[u8],
    room: &[u8],
    bytes: &mut [u8],
) -> Result<PortAnswer, Errno>
    requires port { IsPortOf desk.old.desk.traced desk.old.desk.heard.items port.old.core }
    ensures event { IfOk result (λ answer. IsPortEvent desk.old.desk.traced port.old.core request.now sent.now
        room.now desk.new.desk.traced port.new.core bytes.old bytes.new answer) }
    ensures error { IfErr result (λ errno. PortCallError desk.old.desk.traced port.old.core request.now
        sent.now room.now errno) }
    ensures unchanged { IfErr result (λ _. IsUncalled desk.old.desk.traced desk.new.desk.traced port.old.core
        port.new.core × (bytes.new ≡ bytes.old)) }
    ensures same { IsSameKernel desk.new.desk.traced desk.old.desk.traced
        × (names_in desk.new.desk.heard.items ≡ names_in desk.old.desk.heard.items)
        × IsSamePort port.new.core port.old.core }
{
    let alloc = desk.desk.kernel().alloc();
    let mut call = call_for(port, alloc, request, sent, room)?;
    let core = &mut port.core;
    core.prepare::<GhostHistory>(&call);
    let made = core.call(&mut desk.desk, &*desk.cells, &Once, &mut call);
    let called = core.finish_call(made, call);
    let mut row = Row::default();
    let ended = match called {
        Called::Refused(errno, _) => return Err(errno),
        Called::Blocked => 0,
        Called::Done(completion) => {
            tell_one(desk.desk.kernel(), &completion, &mut row, bytes);
            port.spares.keep(completion.buffer);
            1
        }
    };
    Ok(PortAnswer {
        woken: port.core.woken(),
        call: desk.desk.kernel().made(),
        ended,
        row,
    })
}
