//! The interpreter of code: one thread's frames, its local instructions, and what it asks.
//!
//! A thread runs until it asks, and goes on once it is answered. It takes all its memory as it is made. What it asks is
//! what its code means, on any code: `specs/Threads.antt` says how.
#![tactic(auto)]

mod cells;
mod compute;
mod frames;
mod memory;
mod moved;
mod run;
mod step;
mod thread;

pub use moved::Want;
pub use thread::Thread;
