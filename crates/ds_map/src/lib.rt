//! Where things lie: the limits of a run, the addresses of program memory, and the words of the shared table.
//!
//! Program memory has 4,096 words of globals from address 0x1000, 4,096 words of stack for each of 16 threads from
//! 0x100000, and 512 words of heap for each page from 0x1000000. A word has 8 bytes. Its number among the program
//! words, globals first, then stacks, then heap, is its location.
#![tactic(auto)]

mod bounds;
mod places;

pub use bounds::Limits;
pub use places::{address, location, word_of};
