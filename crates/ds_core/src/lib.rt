//! Runs code on the shared words and records every step.
#![tactic(auto)]

mod lists;
mod record;
mod replaying;

pub use ds_actor::{Actor, Turn, turn};
pub use ds_schedule::{Cues, Schedule};
pub use lists::{Order, Steps, Stops, Traces};
pub use record::{Ended, RunRecord};
pub use replaying::replay;
