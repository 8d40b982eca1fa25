//! The reasons why there is no chart.

ghost use Rattle.std.specs.Prelude.{◌≡◌};
ghost use Rattle.qscript_text.specs.declared.fault.ScriptFault.TheVariants.{NoMemory};
ghost use Rattle.qscript_chart.specs.declared.fault.ChartFault.TheVariants.{Script};
ghost use Rattle.qscript_chart.specs.Fault.{status_of};

use qscript::fault::ScriptFault;
use std::alloc::{AllocError, AllocFailed};
use thiserror::Error;

/// The reason why a script has no chart.
#[derive(Debug, Error)]
pub enum ChartFault {
    /// The script is faulty, or there is no memory for its run or its chart.
    #[error("{0}")]
    Script(ScriptFault),
    /// The script has this many calls, and more than 400 of them would be drawn.
    #[error("too many calls for a chart: expected at most 400, found {0}")]
    TooManyCalls(usize),
}

// Each place that drops one calls this. A derived drop would be repeated, and proved, at each of them.
impl Drop for ChartFault {
    fn drop(self) {
        match self {
            ChartFault::Script(_) | ChartFault::TooManyCalls(_) => {}
        }
    }
}

impl From<ScriptFault> for ChartFault {
    ghost from_gives = { λ f e. e ≡ Script f };

    fn from(fault: ScriptFault) -> ChartFault {
        ChartFault::Script(fault)
    }
}

impl From<AllocError> for ChartFault {
    ghost from_gives = { λ _ e. e ≡ Script NoMemory };

    fn from(_e: AllocError) -> ChartFault {
        ChartFault::Script(ScriptFault::NoMemory)
    }
}

impl<T: Drop> From<AllocFailed<T>> for ChartFault {
    ghost from_gives = { λ _ e. e ≡ Script NoMemory };

    fn from(_e: AllocFailed<T>) -> ChartFault {
        ChartFault::Script(ScriptFault::NoMemory)
    }
}

impl ChartFault {
    /// Returns the exit status: 1 if the script is faulty or has too many calls, 3 if something else failed.
    pub fn status(&self) -> u8
        ensures { result ≡ status_of self.now }
    {
        match self {
            ChartFault::Script(fault) => fault.status(),
            ChartFault::TooManyCalls(_) => 1,
        }
    }
}
