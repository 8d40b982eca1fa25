//! The laws of every valid history, and of the prefixes that threads see. The functions do nothing: their
//! contracts are the laws.

pub use crate::completing::{completions_are_seen, completions_in_real_time};
pub use crate::fitting::results_fit_calls;
pub use qrules_laws::{completions, ids, open_calls, pending, properties};
pub use qshared::history_laws::{in_real_time, is_beginning, taken_is_due};
