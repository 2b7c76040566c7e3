//! Which functions may be declared, and which names are kept.
ghost use Rattle.std.specs.Prelude.{◌≡◌, ◌↔◌, IsTrue, map};
ghost use Rattle.ds_ast.specs.declared.module.Param.{Param as param};
ghost use Rattle.ds_shape.specs.Externals.{parameter_types, signature, HasOneOf, HasSignature, externals};
ghost use Rattle.ds_shape.specs.Accepted.{IsReserved};

use ds_ast::{Function, Name, Param, Scalar, Ty};
use ds_check_names::is_called;

/// Whether parameters have these types.
fn have_types(params: &[Param], types: &[Scalar]) -> bool
    ensures { IsTrue result ↔ (map (λ (p : param). p.ty) params.now ≡ types.now) }
{
    match params.split_first() {
        None => types.is_empty(),
        Some((param, params)) => match types.split_first() {
            None => false,
            Some((ty, types)) => param.ty == *ty && have_types(params, types),
        },
    }
}

/// Whether a function takes parameters of these types.
pub fn takes(f: &Function, types: &[Scalar]) -> bool
    ensures { IsTrue result ↔ (parameter_types f.now ≡ types.now) }
{
    have_types(f.params.as_slice(), types)
}

/// Whether a function has this name and this type.
#[tactic(auto, using(crate::proofs::Signature::fits, crate::proofs::Signature::other_name, crate::proofs::Signature::other_result))]
fn has_signature(f: &Function, name: &[u8], gives: &Ty, types: &[Scalar]) -> bool
    ensures { IsTrue result ↔ HasSignature f.now (signature name.now gives.now types.now) }
{
    if !is_called(&f.name, name) {
        return false;
    }
    if f.result == *gives {
        return takes(f, types);
    }
    false
}

/// Whether a function is one of the externals, with its type.
pub fn is_known_external(f: &Function) -> bool
    ensures { IsTrue result ↔ HasOneOf externals f.now }
{
    let void = Ty::Void;
    let number = Ty::One(Scalar::I32);
    let address = Ty::One(Scalar::Ptr);
    has_signature(f, b"malloc".as_slice(), &address, &[Scalar::I64])
        || has_signature(f, b"free".as_slice(), &void, &[Scalar::Ptr])
        || has_signature(f, b"print_i64".as_slice(), &void, &[Scalar::I64])
        || has_signature(
            f,
            b"pthread_create".as_slice(),
            &number,
            &[Scalar::Ptr, Scalar::Ptr, Scalar::Ptr, Scalar::Ptr],
        )
        || has_signature(
            f,
            b"pthread_join".as_slice(),
            &number,
            &[Scalar::I64, Scalar::Ptr],
        )
}

/// Whether a name begins with `ds_`, which is kept for what the program adds.
pub fn is_reserved(name: &Name) -> bool
    ensures { IsTrue result ↔ IsReserved name.now }
{
    match name {
        Name::Number(_) => false,
        Name::Text(bytes) => bytes.as_slice().starts_with(b"ds_".as_slice()),
    }
}
