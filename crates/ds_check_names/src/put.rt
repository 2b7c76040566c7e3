//! One name more.
ghost use Rattle.std.specs.Prelude.{◌≡◌, [], ◌∷◌, ◌++◌, OnOk, IfErr};
ghost use Rattle.ds_names.specs.Names.{AreDistinct};
ghost use Rattle.ds_check_names.specs.Fault.{IsFaultOf};

use crate::fault::ScopeFault;
use ds_ast::Name;
use ds_names::Names;

/// Puts a name behind the others. An `Err` comes where it stands among them, or where there is not enough memory.
pub fn put<'a>(names: &mut Names<'a>, name: &'a Name) -> Result<(), ScopeFault<'a>>
    ensures put { OnOk result (names.new ≡ names.old ++ name.now ∷ []) }
    ensures each_once { AreDistinct names.new }
    ensures refused { IfErr result (λ fault. IsFaultOf (names.old ++ name.now ∷ []) fault) }
{
    if names.put(name)? {
        Ok(())
    } else {
        Err(ScopeFault::Twice(name))
    }
}
