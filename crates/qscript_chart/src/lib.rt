//! Draws a run, the calls of a script on a new kernel, as a sequence diagram. It has a vertical lifeline for
//! each thread, and an arrow for each message, reply and pulse. It is drawn as SVG or in columns of text.
#![tactic(auto)]

pub mod arrow;
pub mod changes;
pub mod chart;
pub mod drawing;
pub mod fault;
mod label;
mod plan;
pub mod row;
mod run;
mod svg;
mod text;
pub mod view;
