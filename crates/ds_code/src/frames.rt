//! Frames that wait for what a call gives.

/// A frame that waits at the instruction behind a call.
#[derive(Clone, Copy, Debug)]
pub struct Waiting {
    /// The number of its function among all.
    pub function: u32,
    /// How many instructions of the function's code stand before the one at which it waits.
    pub at: usize,
    /// Its first cell.
    pub base: u32,
    /// How many words of the thread's stack are taken, by this frame and those below.
    pub taken: u32,
    /// Its cell that takes what the call gives.
    pub to: Option<u32>,
}
