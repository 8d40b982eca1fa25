//! Runs a server with three services and its clients, each on its own thread, with a kernel under a lock. To
//! write your own server, start from `client`, `server` and `services`.
#![tactic(auto)]

pub mod client;
pub mod fault;
pub mod hold;
pub mod progress;
mod protocol;
pub mod recording;
mod run;
pub mod serve;
pub mod server;
pub mod services;
pub mod settings;
pub mod texts;
pub mod timed;
pub mod timing;
pub mod work_counts;
mod worker_threads;
