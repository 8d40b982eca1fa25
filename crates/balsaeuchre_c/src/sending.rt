//! Shows by the toolchain's `Send` that the session of a handle may move from thread to thread.

use crate::session::Session;

/// Accepts only a value that may move to another thread.
fn may_go<T: Send>(_value: &T) {}

/// A session may move to another thread: another thread may continue with the handle of the first.
pub fn session_may_go(session: &Session) {
    may_go(session);
}
