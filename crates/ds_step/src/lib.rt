//! One atomic operation on one 64-bit word of the shared table, the words that it is made on, and what a recorded
//! step tells of it.
#![tactic(auto)]

mod operation;
mod table;

pub use table::{VecWords, Words};

/// What an operation does to its word. Each answers the word's old value, but `Store`, which answers 0.
#[derive(Clone, Copy, Debug, PartialEq, Eq)]
pub enum OpKind {
    /// The word stays.
    Load,
    /// The word becomes `a`.
    Store,
    /// The word becomes `a`.
    Swap,
    /// `a` is added, modulo 2^64.
    Add,
    /// `a` is subtracted, modulo 2^64.
    Sub,
    /// The bits that `a` has too stay.
    And,
    /// The bits of `a` are added.
    Or,
    /// The bits of `a` are flipped.
    Xor,
    /// The greater of the word and `a` stays.
    Max,
    /// The smaller of the word and `a` stays.
    Min,
    /// Where the word is `a` it becomes `b`, and else it stays.
    Cas,
}

/// One atomic operation: its kind, the index of its word in the table, and its operands. An operand
/// that the kind does not use is 0.
#[derive(Clone, Copy, Debug, PartialEq, Eq)]
pub struct WordOp {
    pub kind: OpKind,
    pub word: u32,
    pub a: u64,
    pub b: u64,
}

/// Which room of the run is full.
#[derive(Clone, Copy, Debug, PartialEq, Eq)]
pub enum FullWhat {
    /// No log is left for the pointers that a thread stores into a block.
    Logs,
    /// No word is left for the hash chunk of a log.
    Hash,
}

/// Why a `free` traps.
#[derive(Clone, Copy, Debug, PartialEq, Eq)]
pub enum FreeTrap {
    /// No block starts at the address.
    BadFree,
    /// The block at the address is not live, or no longer in the life in which the free found it: `seen` is its
    /// block word as the free saw it.
    DoubleFree { seen: u64 },
}

/// What a step means for the program that runs. A location is the number of a program word, a place the number of
/// a block, and a life counts how often the block was given out.
#[derive(Clone, Copy, Debug, PartialEq, Eq)]
pub enum Event {
    /// The thread began to run its function.
    Begin,
    /// The thread was given the new thread `n`, which is to run this function with this argument.
    Spawn { n: u8, function: u32, arg: u64 },
    /// The thread asked for a new thread, and no number was left for one.
    SpawnRefused,
    /// The thread saw that thread `n` has ended.
    Join { n: u8 },
    /// The thread ended.
    End,
    /// The thread printed `value`, as the print of this number, counted from 0 over all threads.
    Print { number: u64, value: u64 },
    /// The thread read the word at a location, which held `value`.
    Load { loc: u32, value: u64 },
    /// The thread wrote `value` to the word at a location.
    Store { loc: u32, value: u64 },
    /// The thread changed the word at a location, in one step, to `value`.
    Exchange { loc: u32, value: u64 },
    /// A `malloc` gave a page, which had no size class, the class that it wants.
    Assign { page: u32, class: u8 },
    /// A `malloc` passed over a place whose block is in use.
    Taken { place: u32 },
    /// A `malloc` passed over a page of another size class.
    TakenPage { page: u32 },
    /// A `malloc` took the free block at a place: it starts at address `start`, and `life` is its life from then on.
    Block { place: u32, start: u64, life: u32 },
    /// A note found that the stored value points into the live block at a place, which starts at address `start`.
    Found { place: u32, start: u64, life: u32 },
    /// A note found that the stored value points into no live block.
    Skip,
    /// A note recorded that the word at a location was given a pointer into a block in this life.
    Noted { place: u32, life: u32, loc: u32 },
    /// A `free` took the live block at a place, so that no other free can.
    BeginFree { place: u32, life: u32 },
    /// A `free` marked the word at a location, which points into its block, as a dangling pointer.
    Mark { loc: u32 },
    /// A `free` saw that the word at a location does not point into its block.
    Seen { loc: u32 },
    /// A `free` ended: the block at a place is free again.
    EndFree { place: u32 },
    /// The thread did what stops it by a trap.
    Trap,
    /// The thread stops, since a room of the run is full.
    Full { what: FullWhat },
    /// The step means nothing for the program: it belongs to the machine's own records.
    Log,
}

/// One step of a thread as it is recorded: the operation, what it answered, the row of the step table
/// that it is, and what it means.
#[derive(Clone, Copy, Debug, PartialEq, Eq)]
pub struct Step {
    pub op: WordOp,
    pub old: u64,
    pub row: u8,
    pub event: Event,
}

// A record of a run has many steps, so a step fits in eight words.
const _: () = prove!(size_of::<Step>() <= 64);
