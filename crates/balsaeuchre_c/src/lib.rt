//! The kernel for C and for Rust, as a static library. Its header is `foreign/include/balsaeuchre.h`, which
//! also has the duties of a caller.
#![tactic(auto)]

ghost use Rattle.std.specs.Prelude.{◌≡◌, ◌≤◌, ◌<◌, ◌⊎◌, List, length, true, false, Some};
ghost use Rattle.qbase.specs.declared.errno.Errno.{Errno};
ghost use Rattle.qkernel_state.specs.Contents.{members_of};
ghost use Rattle.balsaeuchre_c.specs.declared.session.Session.{Session};
ghost use Rattle.qbase.specs.declared.errno.TheConstants.{ERRNOS};
ghost use Rattle.balsaeuchre_c.specs.Calling.{CallError, IsEvent};
ghost use Rattle.balsaeuchre_c.specs.Numbers.{numbered};
ghost use Rattle.balsaeuchre_c.specs.Opening.{IsNewOf, NewError};
ghost use Rattle.qshared.specs.Collected.{collected_at};
ghost use Rattle.qshared.specs.Delivered.{origin_of};
ghost use Rattle.qshared.specs.Desks.{IsPortOf, IsSamePort, names_in};
ghost use Rattle.qshared.specs.UnderLock.{IsSameKernel};
ghost use Rattle.qshared.specs.declared.desk_port.DeskPort.{DeskPort};
ghost use Rattle.balsaeuchre_c.specs.Looking.{AreLooks, TellsHeld};
ghost use Rattle.balsaeuchre_c.specs.Ports.{IsNewDesk, IsPortEvent, IsTaken, IsUncalled, PortCallError};
ghost use Rattle.balsaeuchre_c.specs.declared.ports.library_desk.LibraryDesk.{LibraryDesk};

mod calling;
mod error;
mod handle;
mod kind;
mod opening;
mod ports;
mod request;
mod roster;
mod row;
mod sending;
mod session;
mod spares;
mod write_rows;

use error::errno_number;
use handle::Handle;
use ports::calling::PortAnswer;
use ports::desk_handle::DeskHandle;
use ports::looking::ThreadRow;
use ports::port_handle::PortHandle;
use qbase::errno::Errno;
use qbase::ids::ReceiveId;
use request::CallRequest;
use roster::RosterThread;
use row::Row;
use std::alloc::Global;
use std::ptr::NonNull;
use write_rows::EventCounts;

/// The version of the library and of its header: a hundred times the first number plus the second, so 10 is
/// 0.10.
const VERSION: u32 = 10;

/// Returns the library's version, which must be the version of the header.
#[unsafe(no_mangle)]
pub extern "C" fn balsaeuchre_version() -> u32
    ensures { result ≡ 10 }
{
    VERSION
}

/// Makes a kernel of these threads, and writes its address to `out`. Returns 0. On an error it returns the
/// error's number, and writes nothing.
#[unsafe(no_mangle)]
pub extern "C" fn balsaeuchre_new(alloc: Global, threads: &[RosterThread], out: &mut *mut u8) -> u32
    ensures made { result ≡ 0 → (session : Session) × IsNewOf threads.now session }
    ensures refused { 1 ≤ result → (errno : Errno) × (numbered ERRNOS result ≡ Some errno)
        × NewError threads.now errno }
{
    match opening::new_session(alloc, threads) {
        Ok(session) => {
            *out = NonNull::from_mut(Box::leak(session)).cast::<u8>().as_ptr();
            0
        }
        Err(errno) => u32::from(errno_number(errno)),
    }
}

/// Frees a kernel that `balsaeuchre_new` made.
#[unsafe(no_mangle)]
pub extern "C" fn balsaeuchre_free(kernel: Handle) {
    drop(kernel.into_box());
}

/// Makes one call. Returns 0, and writes the completions of its event, by rising thread number. On an error
/// it returns the error's number, and changes and writes nothing.
#[unsafe(no_mangle)]
#[inline(always)]
pub extern "C" fn balsaeuchre_make_call(
    kernel: &mut Handle,
    request: &CallRequest,
    sent: &[u8],
    room: &[u8],
    rows: &mut [Row],
    bytes: &mut [u8],
    done: &mut EventCounts,
) -> u32
    ensures event { result ≡ 0
        → IsEvent kernel.old.session request.now sent.now room.now kernel.new.session rows.old rows.new
        bytes.old bytes.new done.new }
    ensures refused { 1 ≤ result → (errno : Errno) × (numbered ERRNOS result ≡ Some errno)
        × CallError kernel.old.session request.now sent.now room.now (length rows.old) errno }

    // On an error everything is unchanged. The roster never changes.
    ensures unchanged { 1 ≤ result → (kernel.new.session ≡ kernel.old.session) × (rows.new ≡ rows.old)
        × (bytes.new ≡ bytes.old) × (done.new ≡ done.old) }
    ensures roster { members_of kernel.new.session.kernel.threads
        ≡ members_of kernel.old.session.kernel.threads }
{
    let session = kernel.get_mut();
    match calling::make_call(session, request, sent, room, rows, bytes) {
        Ok(made) => {
            *done = made;
            0
        }
        Err(errno) => u32::from(errno_number(errno)),
    }
}

/// Makes a desk of these threads, and a port for each. Writes the address of the desk to `desk`, and the
/// addresses of the ports, in ascending order of thread number, to the first places of `ports`. Returns 0. On
/// an error it returns the error's number, and writes nothing. The error is `Inval` if there are fewer places
/// than threads.
#[unsafe(no_mangle)]
pub extern "C" fn balsaeuchre_open_ports(
    alloc: Global,
    threads: &[RosterThread],
    desk: &mut *mut u8,
    ports: &mut [*mut u8],
) -> u32
    ensures made { result ≡ 0 → (opened : LibraryDesk) × (cores : List DeskPort)
        × IsNewDesk threads.now opened cores }
    ensures room { result ≡ 0 → length threads.now ≤ length ports.old }
    ensures refused { 1 ≤ result → (errno : Errno) × (numbered ERRNOS result ≡ Some errno)
        × (NewError threads.now errno ⊎ ((errno ≡ Errno.Inval) × (length ports.old < length threads.now))) }

    // On an error nothing is written.
    ensures unchanged { 1 ≤ result → (desk.new ≡ desk.old) × (ports.new ≡ ports.old) }
{
    if ports.len() < threads.len() {
        return u32::from(errno_number(Errno::Inval));
    }
    match ports::opening::open(alloc, threads) {
        Ok((opened, cores)) => {
            for (place, core) in ports.iter_mut().zip(cores) {
                *place = NonNull::from_mut(Box::leak(core)).cast::<u8>().as_ptr();
            }
            *desk = NonNull::from_mut(Box::leak(opened)).cast::<u8>().as_ptr();
            0
        }
        Err(errno) => u32::from(errno_number(errno)),
    }
}

/// Frees a desk that `balsaeuchre_open_ports` made. Its ports keep the cells.
#[unsafe(no_mangle)]
pub extern "C" fn balsaeuchre_close_desk(desk: DeskHandle) {
    drop(desk.into_box());
}

/// Frees a port that `balsaeuchre_open_ports` made.
#[unsafe(no_mangle)]
pub extern "C" fn balsaeuchre_close_port(port: PortHandle) {
    drop(port.into_box());
}

/// Makes a call of a port's thread, under the program's lock. Returns 0, and writes the answer and the bytes
/// of its completion. On an error it returns the error's number, and writes nothing.
#[unsafe(no_mangle)]
#[inline(always)]
pub extern "C" fn balsaeuchre_port_call(
    desk: &mut DeskHandle,
    port: &mut PortHandle,
    request: &CallRequest,
    sent: &[u8],
    room: &[u8],
    bytes: &mut [u8],
    answer: &mut PortAnswer,
) -> u32
    requires port { IsPortOf desk.old.desk.desk.traced desk.old.desk.desk.heard.items port.old.port.core }
    ensures event { result ≡ 0 → IsPortEvent desk.old.desk.desk.traced port.old.port.core request.now sent.now
        room.now desk.new.desk.desk.traced port.new.port.core bytes.old bytes.new answer.new }
    ensures refused { 1 ≤ result → (errno : Errno) × (numbered ERRNOS result ≡ Some errno)
        × PortCallError desk.old.desk.desk.traced port.old.port.core request.now sent.now room.now errno }

    // On an error nothing changes that the history or the port owes.
    ensures unchanged { 1 ≤ result → IsUncalled desk.old.desk.desk.traced desk.new.desk.desk.traced
        port.old.port.core port.new.port.core × (bytes.new ≡ bytes.old) × (answer.new ≡ answer.old) }
    ensures same { IsSameKernel desk.new.desk.desk.traced desk.old.desk.desk.traced
        × (names_in desk.new.desk.desk.heard.items ≡ names_in desk.old.desk.desk.heard.items)
        × IsSamePort port.new.port.core port.old.port.core }
{
    match ports::calling::call(desk.get_mut(), port.get_mut(), request, sent, room, bytes) {
        Ok(made) => {
            *answer = made;
            0
        }
        Err(errno) => u32::from(errno_number(errno)),
    }
}

/// Takes the completion that was put for a port's thread. Returns 1, and writes the completion and its bytes.
/// Returns 0, and writes nothing, if there is none. Needs no lock, takes no memory, and never waits.
#[unsafe(no_mangle)]
pub extern "C" fn balsaeuchre_port_poll(
    port: &mut PortHandle,
    row: &mut Row,
    bytes: &mut [u8],
) -> u32
    ensures taken { 1 ≤ result → IsTaken (origin_of port.old.port.cells.value).roster.value port.old.port.core
        port.new.port.core bytes.old bytes.new row.new }
    ensures none { result ≡ 0 → (collected_at port.new.port.core ≡ collected_at port.old.port.core)
        × (port.new.port.core.turn.pending ≡ port.old.port.core.turn.pending)
        × (row.new ≡ row.old) × (bytes.new ≡ bytes.old) }
    ensures same { IsSamePort port.new.port.core port.old.port.core
        × (port.new.port.core.asked ≡ port.old.port.core.asked)
        × (port.new.port.core.last ≡ port.old.port.core.last)
        × (port.new.port.cells ≡ port.old.port.cells) }
{
    u32::from(port.get_mut().take(row, bytes))
}

/// Returns 1 if there is a completion for a port's thread, and otherwise 0. Needs no lock, takes no memory,
/// and never waits.
#[unsafe(no_mangle)]
pub extern "C" fn balsaeuchre_port_look(port: &mut PortHandle) -> u32
    ensures { port.new.port ≡ port.old.port }
{
    u32::from(port.get_mut().has_completion())
}

/// Writes the state of each thread, in ascending order of thread number, as far as there are rows, under the
/// program's lock. Returns the number of written rows. It isn't a call.
#[unsafe(no_mangle)]
pub extern "C" fn balsaeuchre_look(desk: &mut DeskHandle, rows: &mut [ThreadRow]) -> usize
    ensures looks { AreLooks desk.old.desk.desk.traced.kernel.threads rows.old rows.new result }
    ensures same { desk.new.desk ≡ desk.old.desk }
{
    desk.get_mut().look(rows)
}

/// Writes the data of a held message like the result of an `Info`, under the program's lock, and returns 1.
/// Returns 0, and writes nothing, if no such message is held. It isn't a call.
#[unsafe(no_mangle)]
pub extern "C" fn balsaeuchre_look_at_message(
    desk: &mut DeskHandle,
    rcvid: u64,
    row: &mut Row,
) -> u32
    ensures held { 1 ≤ result → TellsHeld desk.old.desk.desk.traced.kernel rcvid row.old row.new true }
    ensures none { result ≡ 0 → TellsHeld desk.old.desk.desk.traced.kernel rcvid row.old row.new false }
    ensures same { desk.new.desk ≡ desk.old.desk }
{
    u32::from(desk.get_mut().look_at_message(ReceiveId(rcvid), row))
}
