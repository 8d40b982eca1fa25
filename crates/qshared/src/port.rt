//! The port by which one thread calls a shared kernel.

ghost use Rattle.std.specs.Prelude.{◌≡◌};
ghost use Rattle.qshared.specs.Desks.{IsPortIn};

mod calling;
mod waiting;

use crate::desk_port::DeskPort;
use crate::observed_prefix::ObservedPrefix;
use crate::spin_policy::SpinPolicy;
use crate::tie::Tie;
use crossbeam_utils::sync::Parker;
use qbase::ids::ThreadNo;
use std::sync::ledger::Share;

/// The port by which one thread calls the kernel. There is one for each thread, and it can't be copied.
/// `opening.rt` of `crates/balsaeuchre_calls` makes callers of two ports.
#[derive(Drop)]
pub struct Port<K: Tie> {
    pub(crate) core: DeskPort,
    // The port's share of the count of all events.
    pub(crate) share: Share<K>,
    pub(crate) calls: u64,
    pub(crate) parker: Parker,
    pub(crate) patience: SpinPolicy,
    ghost core_is: { IsPortIn K.names core },
    ghost counted: { share.amount ≡ calls },
    ghost part: { share.parts ≡ 1 },
}

impl<K: Tie> Port<K> {
    pub(crate) fn new(core: DeskPort, share: Share<K>, parker: Parker) -> Port<K>
        requires core { IsPortIn K.names core }
        requires share { (share.amount ≡ 0) × (share.parts ≡ 1) }
        ensures { (result.core ≡ core) × (result.calls ≡ 0) }
    {
        Port {
            core,
            share,
            calls: 0,
            parker,
            patience: SpinPolicy::new(),
        }
    }

    /// Returns the prefix of the history that the port has seen. When a call of the port leaves the lock,
    /// this is the whole history.
    pub fn seen(&self) -> ObservedPrefix<K>
        ensures { result ≡ self.now.core.seen.trace }
    {
        ObservedPrefix::new(self.core.seen.again())
    }

    /// Returns whether a call was blocked and its completion isn't collected yet.
    pub fn pending(&self) -> bool
        ensures { result ≡ self.now.core.turn.pending }
    {
        self.core.turn.pending
    }

    /// Returns the thread that the port belongs to.
    pub fn thread(&self) -> ThreadNo
        ensures { result ≡ self.now.core.thread }
    {
        self.core.thread
    }

    /// Returns the number of the port's calls that are events.
    pub fn calls(&self) -> u64
        ensures { result ≡ self.now.calls }
    {
        self.calls
    }
}
