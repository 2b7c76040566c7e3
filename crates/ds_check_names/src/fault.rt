//! Why names mean nothing.
ghost use Rattle.std.specs.Prelude.{◌≡◌};

use ds_ast::Name;
use std::alloc::AllocError;

/// Why names mean nothing.
#[derive(Debug, Drop)]
pub enum ScopeFault<'a> {
    /// The name stands a second time.
    Twice(&'a Name),
    /// There is not enough memory.
    Memory,
}

impl<'a> From<AllocError> for ScopeFault<'a> {
    ghost use Rattle.ds_check_names.specs.declared.fault.ScopeFault.TheVariants as faults;

    ghost from_gives = { λ fault result. result ≡ faults.Memory };

    fn from(_: AllocError) -> ScopeFault<'a> {
        ScopeFault::Memory
    }
}
