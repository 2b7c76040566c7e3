//! Why a module has no layout.
ghost use Rattle.std.specs.Prelude.{◌≡◌};

use ds_ast::Name;
use std::alloc::AllocError;
use thiserror::Error;

/// Why a module has no layout. Of the faults that a module has, the first is told: in this order of kinds, and within
/// each in the order of the text: struct types, globals, functions.
#[derive(Debug, Drop, Error)]
pub enum ShapeFault {
    /// A struct type has a second line.
    #[error("a struct type is defined twice")]
    TwiceType {
        /// The struct type.
        name: Name,
    },
    /// A struct type that is written has no line.
    #[error("a struct type is unknown")]
    Unknown {
        /// The struct type.
        name: Name,
    },
    /// A struct type holds itself by value.
    #[error("a struct type holds itself")]
    RecursiveType {
        /// The struct type.
        name: Name,
    },
    /// A type that is written has more than 2^31 bytes.
    #[error("a type is too large")]
    TooLarge {
        /// The struct type, global or function that writes it.
        name: Name,
        /// Whether that is a struct type.
        is_struct: bool,
    },
    /// There is not enough memory.
    #[error("out of memory")]
    Memory,
}

impl From<AllocError> for ShapeFault {
    ghost use Rattle.ds_shape.specs.declared.fault.ShapeFault.TheVariants as faults;

    ghost from_gives = { λ fault result. result ≡ faults.Memory };

    fn from(_: AllocError) -> ShapeFault {
        ShapeFault::Memory
    }
}
