//! Ids have no meaning: a law of the model. With new numbers for calls, channels, connections and messages,
//! and for threads and processes, each call has the same completions with new numbers. No code uses this law;
//! it shows a reader that the rules only compare numbers.
#![tactic(auto)]

pub mod renaming_laws;
