//! Runs written out by hand, with the result of each call. The functions do nothing: their contracts are the
//! tests. Each contract says that its runs are valid, and that the calls that it names can't complete in any
//! other way: no completion may be changed, left out or added. The runs of `broken` aren't valid: each breaks
//! one of the properties of all valid histories, and its contract says that the property doesn't hold for it.
#![tactic(auto)]

pub mod broken;
pub mod completion;
pub mod copied;
pub mod messages;
pub mod moving;
pub mod priorities;
pub mod pulses;
pub mod refusals;
pub mod three_processes;
