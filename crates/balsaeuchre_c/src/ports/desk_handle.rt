//! A desk on the heap, as C holds it: one pointer.

ghost use Rattle.std.specs.Prelude.{◌≡◌};
ghost use Rattle.balsaeuchre_c.specs.declared.ports.library_desk.LibraryDesk.{LibraryDesk};
ghost use Rattle.balsaeuchre_c.specs.PortsOwning.{desk_coded, desk_owns};

use crate::ports::library_desk::LibraryDesk;
use std::alloc::Global;
use std::marker::Model;

/// A handle that owns its desk. For C it is a struct of one pointer.
#[repr(C)]
#[derive(Drop)]
pub struct DeskHandle {
    ptr: *mut u8,
    alloc: Global,
    pub ghost desk: { LibraryDesk } by { desk_coded },
}

impl Model for DeskHandle {
    ghost also_owns = { λ h. desk_owns h.alloc h.ptr h.desk };
}

impl DeskHandle {
    ghost use Rattle.std.specs.Borrow.{sem};
    ghost use Rattle.balsaeuchre_c.specs.PortsLending.{LendsDesk};

    /// Returns the desk that the handle owns.
    pub fn get_mut(&mut self) -> &mut LibraryDesk
        ensures* writes_back { sem 𝓛 (LendsDesk self.entry result) }
        ensures value { result.now ≡ self.old.desk }
    {
        unsafe { &mut *(self.ptr as *mut LibraryDesk) }
    }

    /// Returns the desk in its box.
    pub fn into_box(self) -> Box<LibraryDesk, Global>
        ensures { result.value ≡ self.desk }
    {
        let DeskHandle { ptr, alloc } = self;
        unsafe { Box::from_raw(alloc, ptr as *mut LibraryDesk) }
    }
}
