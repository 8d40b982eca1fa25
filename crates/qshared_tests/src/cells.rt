//! Tests of the cells, through which threads get the kernel's completions.

mod crossing;
mod making;
