//! A session on the heap, as C holds it: one pointer.

ghost use Rattle.std.specs.Prelude.{◌≡◌};
ghost use Rattle.balsaeuchre_c.specs.declared.session.Session.{Session};
ghost use Rattle.balsaeuchre_c.specs.Owning.{session_coded, handle_owns};

use crate::session::Session;
use std::alloc::Global;
use std::marker::Model;

/// A handle that owns its session. For C it is a struct of one pointer.
#[repr(C)]
#[derive(Drop)]
pub struct Handle {
    ptr: *mut u8,
    alloc: Global,
    pub ghost session: { Session } by { session_coded },
}

impl Model for Handle {
    ghost also_owns = { λ h. handle_owns h.alloc h.ptr h.session };
}

impl Handle {
    ghost use Rattle.std.specs.Borrow.{sem};
    ghost use Rattle.balsaeuchre_c.specs.Lending.{LendsSession};

    /// Returns the session that the handle owns.
    pub fn get_mut(&mut self) -> &mut Session
        ensures* writes_back { sem 𝓛 (LendsSession self.entry result) }
        ensures value { result.now ≡ self.old.session }
    {
        unsafe { &mut *(self.ptr as *mut Session) }
    }

    /// Returns the session in its box.
    pub fn into_box(self) -> Box<Session, Global>
        ensures { result.value ≡ self.session }
    {
        let Handle { ptr, alloc } = self;
        unsafe { Box::from_raw(alloc, ptr as *mut Session) }
    }
}
