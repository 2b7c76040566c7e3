//! Addresses of parts.
ghost use Rattle.std.specs.Prelude.{◌≡◌, IfOk};
ghost use Rattle.ds_shape.specs.Address as address;
ghost use Rattle.ds_shape.specs.Fits.{Fits};
ghost use Rattle.ds_code.specs.Cells.{cells_for};
ghost use Rattle.ds_code.specs.Lowering as lowering;
ghost use Rattle.ds_lower.specs.Known.{IsPushed};

use crate::local::Local;
use crate::values::{operand_of, source_of};
use ds_ast::{List, Operand, Ty, Value};
use ds_code::{CodeOp, Stride, ValueOp};
use ds_lower_parts::{Scope, leap_into};
use std::alloc::{AllocError, Global};

/// What an index adds.
fn stride_of(scope: &Scope, local: &Local, fixed: u64, scale: u64, index: &Operand) -> Stride
    ensures { result ≡ record {
      fixed = fixed;
      scale = scale;
      index = lowering.operand_of scope.now (cells_for local.now) index.now;
    } }
{
    Stride {
        fixed,
        scale,
        index: operand_of(scope, local, index),
    }
}

/// Adds what indices into a type add, and says whether they lead anywhere.
fn push_strides<'a>(
    scope: &Scope<'_, 'a>,
    local: &Local,
    ty: &'a Ty,
    indices: &[Operand],
    strides: &mut List<Stride>,
) -> Result<bool, AllocError>
    requires { Fits scope.now.structs ty.now }
    ensures { IfOk result (λ leads. IsPushed scope.now (cells_for local.now) strides.old
        (address.steps_into scope.now.structs ty.now indices.now) indices.now leads strides.new) }
{
    let mut at = ty;
    for n in 0..indices.len() {
        let found = leap_into(scope, at, &indices[n])?;
        match found {
            Some(leap) => {
                strides.push(stride_of(scope, local, leap.fixed, leap.scale, &indices[n]))?;
                at = leap.next;
            }
            None => return Ok(false),
        }
    }
    Ok(true)
}

/// A `getelementptr`. The first index counts whole values of the type, and the others lead into it.
pub fn gep_of<'a>(
    alloc: Global,
    scope: &Scope<'_, 'a>,
    local: &Local,
    ty: &'a Ty,
    base: &Value,
    indices: &[Operand],
) -> Result<CodeOp, AllocError>
    requires { Fits scope.now.structs ty.now }
    ensures { IfOk result (λ made. made ≡ lowering.gep_of scope.now (cells_for local.now) base.now indices.now
        (address.address_steps scope.now.structs ty.now indices.now)) }
{
    let mut strides = List::new(alloc);
    if let Some((index, rest)) = indices.split_first() {
        strides.push(stride_of(scope, local, 0, scope.size_of(ty), index))?;
        if !push_strides(scope, local, ty, rest, &mut strides)? {
            return Ok(CodeOp::Unknown);
        }
    }
    Ok(CodeOp::Compute(ValueOp::Gep {
        base: source_of(scope, local, base),
        strides,
    }))
}
