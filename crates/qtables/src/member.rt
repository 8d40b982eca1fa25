//! A thread of the roster.

use qbase::ids::{ProcessNo, ThreadNo};
use qbase::priority::Priority;
use std::alloc::Global;
use std::default::MadeWith;

/// A thread, with its process and the priority that it begins with.
#[derive(Clone, Copy, Debug, PartialEq, Eq)]
pub struct Member {
    pub thread: ThreadNo,
    pub process: ProcessNo,
    pub priority: Priority,
}

// The value in the unused places of a roster.
impl MadeWith<Global> for Member {
    fn made_with(_alloc: Global) -> Member {
        Member {
            thread: ThreadNo(0),
            process: ProcessNo(0),
            priority: Priority::lowest(),
        }
    }
}
