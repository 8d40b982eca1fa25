//! Everything that a caller of the kernel needs, under one name. `calls` has the calls of a thread that runs
//! by itself. `simulator` has the calls of many threads, made by one. `shared` has the kernel under its lock.
//! The kernel itself is here.
//!
//! `docs/LIBRARY.md` begins with a server and its client, and lists the items.
#![tactic(auto)]

pub mod calls;
mod completing;
mod fitting;
pub mod history_laws;
pub mod shared;
pub mod simulator;

pub use qbase::bytes::Bytes;
pub use qbase::errno::{Errno, word};
pub use qbase::flags::ChannelFlags;
pub use qbase::ids::{ChannelId, ConnectionId, ProcessNo, ReceiveId, ThreadNo};
pub use qbase::priority::Priority;
pub use qbase::state::ThreadState;
pub use qkernel::kernel::{CALL_LIMIT, Kernel};
pub use qkernel::lent_call::LentCall;
pub use qkernel::run::run;
pub use qkernel::trace::Trace;
pub use qkernel_state::completions::Completions;
pub use qkernel_state::thread_ref::ThreadRef;
pub use qmodel::call::{Call, Completion, Info, Mark};
pub use qqueue::item::What;
pub use qtables::member::Member;
pub use qtables::roster::{Roster, THREAD_LIMIT};
