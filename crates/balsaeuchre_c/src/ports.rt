//! A desk and its ports: a kernel that a program uses under a lock of its own, and one port for each thread,
//! with which the thread takes its completions without the lock.

pub mod calling;
pub mod collecting;
pub mod desk_handle;
pub mod library_desk;
pub mod library_port;
pub mod looking;
pub mod opening;
pub mod port_handle;
pub mod sending;
