//! Why a module is not accepted.
ghost use Rattle.std.specs.Prelude.{◌≡◌};

use ds_ast::Name;
use std::alloc::AllocError;
use thiserror::Error;

/// What a module may have too many of.
#[derive(Clone, Copy, Debug, PartialEq, Eq)]
pub enum CountKind {
    /// Functions, declared and defined: 1,024.
    Functions,
    /// Instructions of all functions together: 200,000.
    Instructions,
    /// Parameters of one function: 64.
    Params,
    /// Words of all globals together, each rounded up to whole words of 8 bytes: 4,096.
    GlobalWords,
}

/// Why a module is not accepted. `f` is the number of a function among all functions of the module, `i` that of an
/// instruction in its function, both in the
/// order of the text and from 0 on. Of the faults that a module has, the first is told, as the variants stand here;
/// but a wrong initialiser comes behind
/// `BadExternal` and before the faults of functions, those of one function come before those of the next, and
/// `Undefined`, `WrongType` and `BadPhi` of one
/// instruction before those of the next.
#[derive(Debug, Drop, Error)]
pub enum TypeFault {
    /// A global or function of this name stands before.
    #[error("a name is defined twice")]
    Twice {
        /// The name.
        name: Name,
    },
    /// There are more of these than the limit.
    #[error("too many")]
    TooMany {
        /// Of what.
        what: CountKind,
        /// How many there may be.
        limit: u32,
    },
    /// A declaration is none of the known externals with its type, or a name begins with `ds_`.
    #[error("a bad external")]
    BadExternal {
        /// The global or function.
        name: Name,
    },
    /// A parameter, label or result of this name stands before in the function.
    #[error("a local name is defined twice")]
    TwiceLocal {
        /// The function.
        f: u32,
        /// The name.
        name: Name,
    },
    /// A label is none of the function's, or that of its entry.
    #[error("a bad block")]
    BadBlock {
        /// The function.
        f: u32,
        /// The instruction.
        i: u32,
    },
    /// An operand is defined nowhere.
    #[error("undefined")]
    Undefined {
        /// The function.
        f: u32,
        /// The instruction.
        i: u32,
    },
    /// An instruction breaks the rule of its types; or, where both numbers are 2^32 - 1, the initialiser of a global
    /// does.
    #[error("a wrong type")]
    WrongType {
        /// The function.
        f: u32,
        /// The instruction.
        i: u32,
    },
    /// A phi does not stand at the front of its block, or its labels are not the block's predecessors, or one label
    /// has two values.
    #[error("a bad phi")]
    BadPhi {
        /// The function.
        f: u32,
        /// The instruction.
        i: u32,
    },
    /// A value is not assigned on every path to its use.
    #[error("not assigned on every path")]
    NotDominating {
        /// The function.
        f: u32,
        /// The instruction.
        i: u32,
    },
    /// No function `@main` is defined that gives nothing or an `i32`, and takes nothing or an `i32` and a `ptr`.
    #[error("no main")]
    NoMain,
    /// There is not enough memory.
    #[error("out of memory")]
    Memory,
}

impl From<AllocError> for TypeFault {
    ghost use Rattle.ds_check.specs.declared.fault.TypeFault.TheVariants as faults;

    ghost from_gives = { λ fault result. result ≡ faults.Memory };

    fn from(_: AllocError) -> TypeFault {
        TypeFault::Memory
    }
}
