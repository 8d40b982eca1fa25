//! A copy of a kernel.

use super::Kernel;
use std::alloc::AllocError;

impl Kernel {
    ghost use Rattle.std.specs.Prelude.{◌≡◌, IfOk};
    ghost use Rattle.qkernel.specs.Kernel.{facts_in};

    /// Returns a kernel that continues as this kernel does: it has the same threads, open calls, channels and
    /// connections, and has made as many calls. Its queues may have less room, so a call may take memory in
    /// the copy that takes none in this kernel. Fails if the allocator refuses.
    pub fn copied(&self) -> Result<Kernel, AllocError>
        ensures { IfOk result (λ copy. facts_in copy ≡ facts_in self.now) }
    {
        Ok(Kernel {
            alloc: self.alloc,
            made: self.made,
            down: self.down,
            objects: self.objects.copied(self.alloc)?,
        })
    }
}
