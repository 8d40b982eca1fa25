//! Scripts of kernel calls: runs a script on a new kernel and prints the run. Also writes the script of a run
//! that was made elsewhere.
#![tactic(auto)]

pub mod printing;
pub mod run;
pub mod script;
pub mod transfer;
pub mod watched;
pub mod writing;

pub use qscript_text::{MOST_TEXT, Script, fault, parse};
