//! The completions that are kept until they are taken.

ghost use Rattle.std.specs.Prelude.{◌≡◌, ◌+◌, ◌≤◌, ◌++◌, [], length, is_some, position, slice_get, vec_len};
ghost use Rattle.std.specs.Prelude.{vec_capacity};
ghost use Rattle.arrayvec.specs.ArrayVec.{array_vec_len};
ghost use Rattle.balsaeuchre_calls.specs.Simulating.{completed_of, is_of, without, later};

use qbase::ids::ThreadNo;
use qkernel_state::completions::Completions;
use qmodel::call::Completion;

/// Moves the completions of one event to the end of the kept ones, for which there is room.
pub(super) fn append(kept: &mut Vec<Completion>, completions: &mut Completions)
    requires { vec_len kept.old + array_vec_len completions.old ≤ vec_capacity kept.old }
    ensures items { kept.new.items ≡ kept.old.items ++ completions.old.items }
    ensures emptied { completions.new.items ≡ [] }
{
    completions.as_mut_slice().reverse();
    while let Some(completion) = completions.pop() {
        kept.push_reserved(completion);
    }
}

/// Returns the index of the first completion of a thread.
fn place_of(kept: &[Completion], thread: ThreadNo) -> Option<usize>
    ensures { result ≡ position (is_of thread) kept.now }
{
    kept.iter().position(|completed| completed.thread == thread)
}

/// Returns whether there is a completion of a thread.
pub(super) fn has(kept: &[Completion], thread: ThreadNo) -> bool
    ensures { result ≡ is_some (completed_of thread kept.now) }
{
    place_of(kept, thread).is_some()
}

/// Takes a thread's completion from the completions of one event, if there is one.
pub(super) fn take_own(completions: &mut Completions, thread: ThreadNo) -> Option<Completion>
    ensures completed { result ≡ completed_of thread completions.old.items }
    ensures rest { completions.new.items ≡ without thread completions.old.items }
    ensures few { length completions.new.items ≤ length completions.old.items }
{
    let place = place_of(completions.as_slice(), thread)?;
    Some(completions.remove(place))
}

/// Takes the first completion of a thread, if there is one.
pub(super) fn take_of(kept: &mut Vec<Completion>, thread: ThreadNo) -> Option<Completion>
    ensures completed { result ≡ completed_of thread kept.old.items }
    ensures rest { kept.new.items ≡ without thread kept.old.items }
{
    let place = place_of(kept, thread)?;
    Some(kept.remove(place))
}

/// Takes the first completion, if there is one.
pub(super) fn take_oldest(kept: &mut Vec<Completion>) -> Option<Completion>
    ensures completed { result ≡ slice_get kept.old.items 0 }
    ensures rest { kept.new.items ≡ later kept.old.items }
{
    if kept.is_empty() {
        return None;
    }
    Some(kept.remove(0))
}
