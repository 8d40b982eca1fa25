//! A desk that was just opened, with its cells and ports.

ghost use Rattle.std.specs.Prelude.{◌≡◌, [], length, ℕ};
ghost use lib.ListN.{get_elem?};
ghost use Rattle.qkernel_state.specs.Contents.{members_of};
ghost use Rattle.qhandoff.specs.Words.{cells_id};
ghost use Rattle.qshared.specs.Desks.{AreCellsOf, AreNewPorts, names_in};
ghost use Rattle.qshared.specs.UnderLock.{roster_of};

use crate::delivery::{Delivery, Origin};
use crate::desk::Desk;
use crate::desk_port::DeskPort;
use crate::ghost_history::GhostHistory;
use crate::log::Log;
use crate::parts::Parts;
use crate::traced::Traced;
use qhandoff::cells::Cells;
use std::sync::ledger::Blank;

/// A desk that has made no call, the cells that it fills, and a port for each thread, in ascending order of
/// thread number.
#[derive(Drop)]
pub struct OpenedDesk<L: Log> {
    pub desk: Desk<L>,
    pub cells: Cells<Delivery, Origin>,
    pub ports: Vec<DeskPort>,
    pub(crate) blank: Blank,
}

impl Parts {
    /// Makes a desk of these parts, whose history the log keeps.
    pub(crate) fn into_desk<L: Log>(self, log: L) -> OpenedDesk<L>
        requires log { (L.roster log ≡ members_of self.kernel.threads) × (L.past log ≡ []) }
        ensures unused { result.desk.traced.past ≡ [] }
        ensures cells { AreCellsOf result.desk.traced result.cells }
        ensures names { (roster_of result.desk.traced ≡ members_of self.kernel.threads)
            × (cells_id result.cells ≡ cells_id self.cells)
            × (result.desk.traced.history ≡ self.history.name) × (result.desk.heard ≡ self.heard) }
        ensures ports { AreNewPorts (roster_of result.desk.traced) result.desk.traced.cells
            result.desk.traced.history (names_in result.desk.heard.items) result.ports.items }
        ensures blank { result.blank ≡ self.blank }
    {
        let Parts {
            cells,
            seat,
            ports,
            blank,
            kernel,
            heard,
            history,
            ..
        } = self;
        let traced = Traced::new(kernel, seat, log, history);
        let desk = Desk::new(traced, heard);
        OpenedDesk {
            desk,
            cells,
            ports,
            blank,
        }
    }

    /// Makes a desk of these parts that keeps no history, for a program that has a lock of its own. The limit
    /// of the parts is ignored.
    /// `opening.rt` of `crates/balsaeuchre_c` opens one.
    pub fn into_desk_without_history(self) -> OpenedDesk<GhostHistory>
        ensures unused { result.desk.traced.past ≡ [] }
        ensures roster { roster_of result.desk.traced ≡ members_of self.kernel.threads }
        ensures cells { AreCellsOf result.desk.traced result.cells }
        ensures ports { AreNewPorts (roster_of result.desk.traced) result.desk.traced.cells
            result.desk.traced.history (names_in result.desk.heard.items) result.ports.items }
    {
        let _made = self.kernel.made();
        let log = GhostHistory::new(&self.kernel);
        self.into_desk(log)
    }
}
