//! The trait that names the kernel to which parts and ports belong.

ghost use Rattle.std.specs.Prelude.{◌≡◌, []};
ghost use Rattle.qshared.specs.Names.{Names};

use std::marker::{Brand, PhantomData};
use std::sync::ledger::Ledger;

/// Names one kernel: its roster, its cells, its threads' lists of calls, its limit and its ledger. It has no
/// functions.
/// A program writes a function over `K: Tie` that takes the parts, and calls it with `Brand`.
pub trait Tie: Ledger {
    ghost names: { Names };
}

impl Tie for Brand {
    ghost names = { record {
      roster = [];
      cells =
          record { words = 0; slots = 0; views_name = 0; atom = 0; block = 0; offset = 0; slot_names = [] };
      lists = [];
      history = 0;
      limit = 0;
    } };
}

/// Evidence that the ledger has as many parts as there are cells. It has no bytes. It is a struct of its own
/// because a struct with a share of the ledger can't name the ledger's parts.
#[derive(Drop)]
pub(crate) struct Whole<K: Tie> {
    of: PhantomData<K>,
    ghost is: { K.parts ≡ K.names.cells.slots },
}

impl<K: Tie> Whole<K> {
    pub(crate) fn new() -> Whole<K>
        requires { K.parts ≡ K.names.cells.slots }
    {
        Whole { of: PhantomData }
    }
}
