//! The rules of the kernel's calls, and the properties of every valid history, defined over the list of all
//! events. The crate has no functions: contracts cite its definitions. `proofs/Words` has the definitions
//! that the proofs use.
#![tactic(auto)]
