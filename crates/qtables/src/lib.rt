//! The kernel's tables: the roster of threads, the open channels and the live connections.
#![tactic(auto)]

pub mod channels;
pub mod connection;
pub mod connections;
mod entries;
pub mod member;
pub mod roster;
pub mod table_laws;
