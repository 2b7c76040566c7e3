//! A pace, which a caller may set to the steps of the machine.

/// Is told of each step of a machine on the shared table, before the step and on the thread that makes it.
pub trait Pace: Sync {
    /// The thread of this number is about to make a step. It returns.
    fn enter(&self, thread: u8);
}

/// Sets no pace: it does nothing.
#[derive(Clone, Copy, Debug)]
pub struct FreePace;

impl Pace for FreePace {
    fn enter(&self, _thread: u8) {}
}
