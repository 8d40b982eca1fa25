//! Opens a desk and its ports for the threads that C passes.

ghost use Rattle.std.specs.Prelude.{◌≡◌, map, IfOk, IfErr};
ghost use Rattle.balsaeuchre_c.specs.PortCells.{AreOfCells};
ghost use Rattle.balsaeuchre_c.specs.Ports.{IsNewDesk};
ghost use Rattle.balsaeuchre_c.specs.Opening.{NewError};

use crate::ports::library_desk::LibraryDesk;
use crate::ports::library_port::LibraryPort;
use crate::roster::{RosterThread, roster_of};
use crate::spares::Spares;
use qbase::errno::Errno;
use qhandoff::cells::Cells;
use qshared::delivery::{Delivery, Origin};
use qshared::desk_port::DeskPort;
use qshared::opened_desk::OpenedDesk;
use qshared::parts::Parts;
use std::alloc::Global;
use std::sync::Arc;

/// The desk, and a port for each thread, in ascending order of thread number.
pub type Opened = (Box<LibraryDesk, Global>, Vec<Box<LibraryPort, Global>>);

/// The limit of a history. The desk keeps none, so it is never reached.
const TRACE_LIMIT: u32 = 2;

/// Returns these ports on the heap, each with its share of the cells.
fn boxed(
    alloc: Global,
    cores: Vec<DeskPort>,
    cells: &Arc<Cells<Delivery, Origin>, Global>,
) -> Result<Vec<Box<LibraryPort, Global>>, Errno>
    requires { AreOfCells cells.now.value cores.items }
    ensures ports { IfOk result (λ ps. map (λ p. p.value.core) ps.items ≡ cores.items) }
    ensures error { IfErr result (λ e. e ≡ Errno.NoMemory) }
{
    let mut ports = Vec::with_capacity(alloc, cores.len())?;
    for core in cores {
        let port = LibraryPort {
            core,
            cells: Arc::try_clone(cells)?,
            spares: Spares::new(alloc)?,
        };
        let Ok(port) = Box::new(alloc, port) else {
            return Err(Errno::NoMemory);
        };
        ports.push_reserved(port);
    }
    Ok(ports)
}

/// Makes a desk of these threads with its ports. Fails like `roster_of`, or with `NoMemory`.
pub fn open(alloc: Global, threads: &[RosterThread]) -> Result<Opened, Errno>
    ensures desk { IfOk result (λ r. IsNewDesk threads.now r.0.value (map (λ p. p.value.core) r.1.items)) }
    ensures error { IfErr result (NewError threads.now) }
{
    let roster = roster_of(alloc, threads)?;
    let OpenedDesk {
        desk,
        cells,
        ports,
        ..
    } = Parts::new(alloc, &roster, TRACE_LIMIT)?.into_desk_without_history();
    let Ok(cells) = Arc::new(alloc, cells) else {
        return Err(Errno::NoMemory);
    };
    let ports = boxed(alloc, ports, &cells)?;
    let desk = LibraryDesk { desk, cells };
    let Ok(desk) = Box::new(alloc, desk) else {
        return Err(Errno::NoMemory);
    };
    Ok((desk, ports))
}
