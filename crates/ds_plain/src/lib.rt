//! What running a program means: the plain machine, the step table, and histories of recorded steps.
//!
//! Code and contracts share the types of this crate. Its definitions stand in `specs/`.
#![tactic(auto)]

use ds_ast::RmwOp;
use ds_step::FullWhat;

/// Where an instruction stands in the program's text.
#[derive(Clone, Copy, Debug, PartialEq, Eq)]
pub struct Place {
    /// The number of its function among all functions of the text, declared ones too, from 0.
    pub function: u32,
    /// Its number among the instructions of its function, from 0. A note that was added to the text is not counted:
    /// it has the number of the store before it.
    pub instruction: u32,
}

/// Why an instruction could not be carried out. A marked address has bit 63 set.
#[derive(Clone, Copy, Debug, PartialEq, Eq)]
pub enum TrapKind {
    /// It reads or writes at a marked address, as that of a pointer into a block that was freed.
    UseAfterFree { address: u64 },
    /// It reads or writes at an address that lies in no region of memory or is no multiple of the access's width.
    BadAddress { address: u64 },
    /// It frees a block that is not live, or is live again since it asked: `seen` is the block's word as it saw it.
    DoubleFree { address: u64, seen: u64 },
    /// It frees an address at which no block starts.
    BadFree { address: u64 },
    /// It frees a marked address.
    MarkedFree { address: u64 },
    /// It divides by zero.
    DivZero,
    /// It divides the least number of its type by -1.
    DivOverflow,
    /// It would take more than 4,096 stack words, 1,024 frames or 65,536 cells.
    StackLimit,
    /// It is `unreachable`.
    Unreachable,
    /// It joins its own thread, or a number that was never given out.
    BadJoin { number: u64 },
}

/// An instruction that could not be carried out.
#[derive(Clone, Copy, Debug, PartialEq, Eq)]
pub struct Trap {
    /// The instruction.
    pub place: Place,
    /// Why it could not be carried out.
    pub kind: TrapKind,
}

/// How a thread stood when the run ended.
#[derive(Clone, Copy, Debug, PartialEq, Eq)]
pub enum Stop {
    /// It had not ended, and never began.
    Idle,
    /// It had begun, and had not ended.
    Running,
    /// Its function returned, for an `i32` with the 32 bits that it returned.
    Returned(Option<u32>),
    /// It ended at an instruction that could not be carried out.
    Trap(Trap),
    /// It ended at the note of a pointer, since a table was full.
    Full(Place, FullWhat),
    /// The next instruction or step would have cost more than its fuel.
    Fuel,
}

/// A part of a program word: so many of its bits, from one on. A whole word has shift 0 and 64 bits.
#[derive(Clone, Copy, Debug, PartialEq, Eq)]
pub struct Access {
    /// The number of the program word.
    pub loc: u32,
    /// The number of its lowest bit, a multiple of `bits`.
    pub shift: u8,
    /// Its width: 8, 16, 32 or 64.
    pub bits: u8,
}

/// What a thread asks of the machine behind its local instructions. A location is the number of a program word.
#[derive(Clone, Copy, Debug, PartialEq, Eq)]
pub enum Request {
    /// To load a part of a word. The answer is the whole word.
    Load(Access),
    /// To store a value to a part of a word. The answer is 0.
    Store(Access, u64),
    /// To change a part of a word in one step, by an operation with a value. The answer is the whole word before.
    Rmw(Access, RmwOp, u64),
    /// To change a part of a word to `new` in one step, if it is `expected`. The answer is the whole word before.
    Cas {
        access: Access,
        expected: u64,
        new: u64,
    },
    /// To take a block for so many bytes, of at most 4,095. The answer is its address, or 0 where there is none.
    Malloc(u64),
    /// To free the block at an address, which is one of the heap and a multiple of 8. The answer is 0.
    Free(u64),
    /// To note that a pointer, which points into the heap and is not marked, was stored at a location. The answer
    /// is 0.
    Note {
        loc: u32,
        value: u64,
    },
    /// To print a value, the 64 bits of a signed number. The answer is 0.
    Print(u64),
    /// To start a function as a thread with an argument, and to store the thread's number at a location. The answer is
    /// 0, or 11 where no number is left.
    Spawn {
        loc: u32,
        function: u32,
        arg: u64,
    },
    /// To wait until the thread of this number has ended. The answer is 0.
    Join(u64),
    /// To end with this stop.
    Stop(Stop),
}

/// Where a thread stands that has not begun.
#[derive(Clone, Copy, Debug, PartialEq, Eq)]
pub enum StartAt {
    /// It loads its own start word, until that lets it begin.
    LoadStart,
    /// It loads the number of the function that it is to run.
    LoadFunction,
    /// It loads the argument with which it is to run this function.
    LoadArgument { function: u32 },
}

/// Where a thread stands that starts another one.
#[derive(Clone, Copy, Debug, PartialEq, Eq)]
pub enum SpawnAt {
    /// It draws a number for the thread.
    DrawThread {
        loc: u32,
        function: u32,
        arg: u64,
    },
    /// It stores the number `n`, which it drew, at a location.
    StoreNumber {
        n: u8,
        loc: u32,
        function: u32,
        arg: u64,
    },
    /// It stores the number of the function that thread `n` is to run.
    StoreFunction {
        n: u8,
        function: u32,
        arg: u64,
    },
    /// It stores the argument with which thread `n` is to run its function.
    StoreArgument {
        n: u8,
        arg: u64,
    },
    /// It lets thread `n` begin.
    OpenThread {
        n: u8,
    },
}

/// Where a thread stands that waits for the end of another one.
#[derive(Clone, Copy, Debug, PartialEq, Eq)]
pub enum JoinAt {
    /// It loads how many numbers of threads were given out.
    LoadGiven { number: u64 },
    /// It loads the start word of thread `n`, until that says that the thread has ended.
    LoadEnded { n: u8 },
}

/// What a thread makes of a part of a word in one step.
#[derive(Clone, Copy, Debug, PartialEq, Eq)]
pub enum Change {
    /// It puts a value there.
    Put(u64),
    /// It combines what stands there with a value by an operation.
    Combine(RmwOp, u64),
    /// It puts `new` there, if it finds `expected`.
    Replace { expected: u64, new: u64 },
}

/// Where a thread stands that accesses program memory.
#[derive(Clone, Copy, Debug, PartialEq, Eq)]
pub enum AccessAt {
    /// It loads the program word of a location.
    LoadWord {
        loc: u32,
    },
    /// It stores a value to the program word of a location.
    StoreWord {
        loc: u32,
        value: u64,
    },
    /// It combines the program word of a location with a value by an operation.
    CombineWord {
        loc: u32,
        op: RmwOp,
        value: u64,
    },
    /// It puts `new` to the program word of a location, if it finds `expected`.
    ReplaceWord {
        loc: u32,
        expected: u64,
        new: u64,
    },
    /// It loads the program word of which it changes a part.
    LoadPart {
        access: Access,
        change: Change,
    },
    /// It changes a part of a program word that it saw so.
    SwapPart {
        access: Access,
        change: Change,
        seen: u64,
    },
}

/// How far a `malloc` has come through the places of its size class. It looks at the pages one after another, from the
/// page of its first place on and round; in that one it begins at the first place. Where that is not the first of its
/// page, it looks at this page once more in the end, at the places before the first one, unless it saw there that the
/// page has another class.
#[derive(Clone, Copy, Debug, PartialEq, Eq)]
pub struct Search {
    /// The size class that it wants, below 15.
    pub class: u8,
    /// The place at which it began.
    pub first: u32,
    /// The number of pages that it has looked at.
    pub passed: u32,
    /// Whether it looks at the page of its first place once more in the end, as far as it knows.
    pub again: bool,
}

/// Where a thread stands that takes a block.
#[derive(Clone, Copy, Debug, PartialEq, Eq)]
pub enum AllocAt {
    /// It loads the word of a page.
    LoadPage {
        search: Search,
    },
    /// It gives a page, which had no size class, the class that it wants.
    SwapPage {
        search: Search,
    },
    /// It loads the word of the block with this index in its page.
    LoadBlock {
        search: Search,
        index: u32,
    },
    /// It takes the block with this index in its page, which it saw free behind this life.
    SwapBlock {
        search: Search,
        index: u32,
        life: u32,
    },
}

/// Where a thread stands that looks for its own log of the block at a place, which it found live in this life.
#[derive(Clone, Copy, Debug, PartialEq, Eq)]
pub enum ListAt {
    /// It loads the home word, which says which log it has for the place.
    LoadHome { place: u32, life: u32 },
    /// It draws a log, since it has none.
    DrawLog { place: u32, life: u32 },
    /// It stores the header of the log that it drew.
    StoreHeader { place: u32, life: u32, log: u32 },
    /// It stores the number of the log that it drew to the home word.
    StoreHome { place: u32, life: u32, log: u32 },
    /// It loads the header of its log.
    LoadHeader { place: u32, life: u32, log: u32 },
}

/// Where a thread stands that notes that a pointer was stored at a location.
#[derive(Clone, Copy, Debug, PartialEq, Eq)]
pub enum NoteAt {
    /// It loads the word of the page of the pointer.
    LoadPage {
        loc: u32,
        value: u64,
    },
    /// It loads the word of the block that holds the pointer, which has this place and starts at this address.
    LoadBlock {
        loc: u32,
        place: u32,
        start: u64,
    },
    /// It looks for its own log of the block, which it found live.
    Seek {
        loc: u32,
        at: ListAt,
    },
    /// It begins its log anew for the life in which it found the block.
    StoreLife {
        loc: u32,
        place: u32,
        life: u32,
        log: u32,
    },
    /// It stores the location to the first entry that is not used.
    StoreEntry {
        loc: u32,
        place: u32,
        life: u32,
        log: u32,
        used: u32,
    },
    /// It counts this entry as used.
    CountEntry {
        loc: u32,
        place: u32,
        life: u32,
        log: u32,
        used: u32,
    },
}

/// Where a thread stands that frees the block at an address.
#[derive(Clone, Copy, Debug, PartialEq, Eq)]
pub enum FreeAt {
    /// It loads the word of the page.
    LoadPage { address: u64 },
    /// It loads the word of the block, which has this place.
    LoadBlock { address: u64, place: u32 },
    /// It takes the block to free it, which it saw live in this life.
    SwapBlock { address: u64, place: u32, life: u32 },
    /// It gives the block back.
    StoreFree { place: u32, life: u32 },
}

/// Where a thread stands in the step table: which row it makes next, and what it remembers there.
#[derive(Clone, Copy, Debug, PartialEq, Eq)]
pub enum Position {
    /// It has not begun.
    Start(StartAt),
    /// It accesses program memory.
    Access(AccessAt),
    /// It takes a block.
    Malloc(AllocAt),
    /// It notes that a pointer was stored.
    Note(NoteAt),
    /// It frees a block.
    Free(FreeAt),
    /// It starts a thread.
    Spawn(SpawnAt),
    /// It waits for a thread's end.
    Join(JoinAt),
    /// It draws the next print number.
    DrawPrint { value: u64 },
    /// It marks its start word as ended.
    StoreEnded { stop: Stop },
    /// It has ended, and makes no step.
    Over { stop: Stop },
    /// It asks for what the table has no row for yet, and makes no step.
    NoRow,
}

/// What a schedule begins with: a thread has turns until one makes a row, must wait, or is its last. A cue for a
/// thread that was not given out, or that has ended, is passed over.
#[derive(Clone, Copy, Debug, PartialEq, Eq)]
pub struct Cue {
    /// The number of the thread.
    pub thread: u8,
    /// The number of the row of the step table.
    pub until: u8,
}
