//! Reads scripts with names, resolves their names, and compares runs with their expectations.
#![tactic(auto)]

pub mod context;
pub mod difference;
pub mod expectation;
pub mod expecting;
pub mod hints;
pub mod incremental;
pub mod label;
pub mod line;
pub mod named;
pub mod names_fault;
pub mod names_laws;
pub mod plain;
pub mod reading;
pub mod resolution;
pub mod scope;
pub mod shown;
pub mod translation;

pub use named::{NamedReading, NamedScript, read, read_so_far};
