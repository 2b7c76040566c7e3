//! The function with which a program begins.
ghost use Rattle.std.specs.Prelude.{◌≡◌, ◌↔◌, IsTrue, Any};
ghost use Rattle.ds_shape.specs.Accepted.{HasMain, IsMain};

use crate::externals::takes;
use ds_ast::{Function, Module, Scalar, Ty};
use ds_check_names::is_called;

/// Whether a function is a `main` that a program begins with.
fn is_main(f: &Function) -> bool
    ensures { IsTrue result ↔ IsMain f.now }
{
    if f.blocks.is_empty() {
        return false;
    }
    if !is_called(&f.name, b"main".as_slice()) {
        return false;
    }
    if f.result == Ty::Void || f.result == Ty::One(Scalar::I32) {
        return takes(f, &[]) || takes(f, &[Scalar::I32, Scalar::Ptr]);
    }
    false
}

/// Whether a module has a `main` that a program begins with.
pub fn has_main(module: &Module) -> bool
    ensures { IsTrue result ↔ HasMain «module».now }
{
    for f in module.functions.as_slice() {
        if is_main(f) {
            return true;
        }
    }
    false
}
