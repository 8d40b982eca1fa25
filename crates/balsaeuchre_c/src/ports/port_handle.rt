//! A port on the heap, as C holds it: one pointer.

ghost use Rattle.std.specs.Prelude.{◌≡◌};
ghost use Rattle.balsaeuchre_c.specs.declared.ports.library_port.LibraryPort.{LibraryPort};
ghost use Rattle.balsaeuchre_c.specs.PortsOwning.{port_coded, port_owns};

use crate::ports::library_port::LibraryPort;
use std::alloc::Global;
use std::marker::Model;

/// A handle that owns its port. For C it is a struct of one pointer.
#[repr(C)]
#[derive(Drop)]
pub struct PortHandle {
    ptr: *mut u8,
    alloc: Global,
    pub ghost port: { LibraryPort } by { port_coded },
}

impl Model for PortHandle {
    ghost also_owns = { λ h. port_owns h.alloc h.ptr h.port };
}

impl PortHandle {
    ghost use Rattle.std.specs.Borrow.{sem};
    ghost use Rattle.balsaeuchre_c.specs.PortsLending.{LendsPort};

    /// Returns the port that the handle owns.
    pub fn get_mut(&mut self) -> &mut LibraryPort
        ensures* writes_back { sem 𝓛 (LendsPort self.entry result) }
        ensures value { result.now ≡ self.old.port }
    {
        unsafe { &mut *(self.ptr as *mut LibraryPort) }
    }

    /// Returns the port in its box.
    pub fn into_box(self) -> Box<LibraryPort, Global>
        ensures { result.value ≡ self.port }
    {
        let PortHandle { ptr, alloc } = self;
        unsafe { Box::from_raw(alloc, ptr as *mut LibraryPort) }
    }
}
