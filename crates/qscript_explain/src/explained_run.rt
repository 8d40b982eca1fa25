//! Unproved: words and layout. A run whose failures and waits are explained.

use crate::history::{CallHistory, PastCall};
use crate::odd_buffer::OddBuffer;
use crate::waiting::{Wait, deadlocks, waits};
use crate::why::refusals;
use qbase::errno::Errno;
use qbase::ids::ThreadNo;
use qkernel::kernel::Kernel;
use qmodel::call::Call;
use qscript::run::Run;
use qscript::script::roster_with_all;
use qscript_names::context::Context;
use qtables::member::Member;
use std::alloc::{AllocError, Global};

/// A run that continues call by call, and the history of its calls.
#[derive(Drop)]
pub struct ExplainedRun {
    /// A box, since a run is large and its owners pass it on.
    run: Box<Run, Global>,
    history: CallHistory,
    /// The buffer of the latest call, if it may be meant as a length.
    odd_buffer: Option<OddBuffer>,
}

impl ExplainedRun {
    /// Begins a run of these threads on a new kernel, with room for the lines of `calls` calls.
    pub fn new(
        alloc: Global,
        members: &[Member],
        calls: usize,
    ) -> Result<ExplainedRun, AllocError> {
        let run = Run::new(alloc, &roster_with_all(alloc, members), calls)?;
        Ok(ExplainedRun {
            run: Box::new(alloc, run).map_err(|_| AllocError)?,
            history: CallHistory::new(alloc),
            odd_buffer: None,
        })
    }

    /// Makes the next call in the run. After `NoMemory` the run must not be used again.
    pub fn make(&mut self, thread: ThreadNo, call: Call) -> Result<(), Errno> {
        let past = PastCall::of(thread, &call);
        self.odd_buffer = OddBuffer::of(call.buffer());
        self.run.make(thread, call)?;
        Ok(self.history.add(past, self.run.completions())?)
    }

    /// Returns the run, for reading.
    pub fn run(&self) -> &Run {
        &self.run
    }

    /// Returns the buffer of the latest call if it may be meant as a length. Returns it only once.
    pub fn take_odd_buffer(&mut self) -> Option<OddBuffer> {
        self.odd_buffer.take()
    }

    /// Returns the run, without the history of its calls.
    pub fn into_run(self) -> Run {
        Box::into_inner(self.run)
    }

    /// Returns the failures in the event of the latest call: the number of each call, and the reason in
    /// words.
    pub fn refusals(&self, names: Context<'_>) -> Result<Vec<(u64, String)>, AllocError> {
        refusals(
            names,
            self.run.kernel(),
            &self.history,
            self.run.completions(),
        )
    }

    /// Returns which thread waits for which now.
    pub fn waits(&self, alloc: Global) -> Result<Vec<Wait>, AllocError> {
        waits(alloc, self.run.kernel(), &self.history, &[])
    }

    /// Returns in words which thread waits for which now, a line for each, and then the deadlocks.
    pub fn wait_words(&self, names: Context<'_>) -> Result<Vec<String>, AllocError> {
        let kernel = self.run.kernel();
        let waits = self.waits(names.alloc)?;
        let mut words = Vec::new(names.alloc);
        push_waits(&mut words, names, kernel, waits.as_slice())?;
        Ok(words)
    }
}

/// Adds these waits in words, and then the deadlocks among them.
fn push_waits(
    words: &mut Vec<String>,
    names: Context<'_>,
    kernel: &Kernel,
    waits: &[Wait],
) -> Result<(), AllocError> {
    for wait in waits {
        words.push(wait.words(names)?)?;
    }
    for deadlock in &deadlocks(names.alloc, kernel, waits, &[])? {
        words.push(deadlock.words(names)?)?;
    }
    Ok(())
}
