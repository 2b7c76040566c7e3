//! Modules lowered to code.
ghost use Rattle.std.specs.Prelude.{◌≡◌, false, map, IfOk, All, Some};
ghost use Rattle.ds_ast.specs.declared.module.Function.{Function as function};
ghost use Rattle.ds_ast.specs.declared.module.Block.{Block as block};
ghost use Rattle.ds_map.specs.Bounds.{Bounds};
ghost use Rattle.ds_meaning.specs.Values.{is_pointer};
ghost use Rattle.ds_meaning.specs.Program as meaning;
ghost use Rattle.ds_safe_laws.specs.Laws.{DeclaresKnown};
ghost use Rattle.ds_shape.specs.Accepted.{HasLayout, IsWellFormed, Accepted};
ghost use Rattle.ds_code.specs.CodeProgram.{program_of};
ghost use Rattle.ds_lower.specs.Known.{AllFit};
ghost use Rattle.ds_code.specs.Rows.{HasRow};
ghost use Rattle.ds_code.specs.Lowering as lowering;

use crate::instrs::push_block;
use crate::local::Local;
use crate::rows::row_of;
use ds_ast::{Block, Bytes, Function, List, Module, Name, Param, Part, Scalar, Ty};
use ds_code::{Code, CodeFunction, CodeInstr, CodeParts};
use ds_code_laws::{accepted_code_means, code_means};
use ds_lower_parts::{Scope, image_of, small};
use ds_shape::{Shapes, written_types_fit};
use std::alloc::{AllocError, Global};

/// The code of all blocks of a function.
fn lower_blocks<'a>(
    alloc: Global,
    scope: &Scope<'_, 'a>,
    local: &Local,
    blocks: &'a [Block],
) -> Result<List<CodeInstr>, AllocError>
    requires { All (λ (b : block). AllFit scope.now.structs b.code) blocks.now }
    ensures { IfOk result (λ code. code ≡ lowering.lowered_blocks scope.now local.now 0 blocks.now) }
{
    let mut code = List::new(alloc);
    let mut seen: u32 = 0;
    for n in 0..blocks.len() {
        let block = &blocks[n];
        seen = push_block(
            alloc,
            scope,
            local,
            &block.name,
            seen,
            block.code.as_slice(),
            &mut code,
        )?;
    }
    Ok(code)
}

/// The type of the first parameter, if there is one.
fn first_type(params: &[Param]) -> Option<Scalar>
    ensures { result ≡ lowering.first_type params.now }
{
    match params {
        [] => None,
        [first, ..] => Some(first.ty),
    }
}

/// Whether a type is that of addresses.
fn gives_pointer(ty: &Ty) -> bool
    ensures { result ≡ meaning.gives_pointer ty.now }
{
    match ty {
        Ty::Void => false,
        Ty::One(scalar) => is_pointer(*scalar),
        Ty::Array { .. } => false,
        Ty::Struct(_) => false,
    }
}

/// Whether a type is that of addresses.
fn is_pointer(ty: Scalar) -> bool
    ensures { result ≡ is_pointer ty }
{
    matches!(ty, Scalar::Ptr)
}

/// Whether there is one parameter, an address.
fn takes_pointer(params: &[Param]) -> bool
    ensures { result ≡ meaning.takes_pointer params.now }
{
    match params {
        [one] => is_pointer(one.ty),
        _ => false,
    }
}

/// Whether there are blocks.
fn has_blocks(blocks: &[Block]) -> bool
    ensures { result ≡ meaning.has_blocks blocks.now }
{
    match blocks {
        [] => false,
        _ => true,
    }
}

/// Whether a thread may be started on a function.
fn may_start(function: &Function) -> bool
    ensures { result ≡ meaning.is_thread_function (Some function.now) }
{
    has_blocks(function.blocks.as_slice())
        && gives_pointer(&function.result)
        && takes_pointer(function.params.as_slice())
}

/// The code of a function.
fn lower_function<'a>(
    alloc: Global,
    scope: &Scope<'_, 'a>,
    function: &'a Function,
) -> Result<CodeFunction, AllocError>
    requires { All (λ (b : block). AllFit scope.now.structs b.code) function.now.blocks }
    ensures { IfOk result (λ made. made ≡ lowering.lowered_function scope.now function.now) }
{
    let local = Local::new(alloc, function)?;
    let code = lower_blocks(alloc, scope, &local, function.blocks.as_slice())?;
    Ok(CodeFunction {
        cells: local.cells(),
        first: first_type(function.params.as_slice()),
        may_start: may_start(function),
        code,
    })
}

/// The code of all functions.
fn lower_functions<'a>(
    alloc: Global,
    scope: &Scope<'_, 'a>,
    functions: &'a [Function],
) -> Result<List<CodeFunction>, AllocError>
    requires { All (λ (f : function). All (λ (b : block). AllFit scope.now.structs b.code) f.blocks) functions.now }
    ensures { IfOk result (λ made. made ≡ map (lowering.lowered_function scope.now) functions.now) }
{
    let mut made = List::new(alloc);
    for function in functions {
        let lowered = lower_function(alloc, scope, function)?;
        made.push(lowered)?;
    }
    Ok(made)
}

/// The names of functions.
fn names_of(alloc: Global, functions: &[Function]) -> Result<List<Name>, AllocError>
    ensures { IfOk result (λ names. names ≡ map (λ (f : function). f.name) functions.now) }
{
    let mut names = List::new(alloc);
    for function in functions {
        let name = function.name.duplicate(alloc)?;
        names.push(name)?;
    }
    Ok(names)
}

/// The number of `main`.
fn main_number(alloc: Global, scope: &Scope) -> Result<u32, AllocError>
    ensures { IfOk result (λ number. number ≡ meaning.main_number scope.now) }
{
    let name = Name::Text(Bytes::from_vec(Vec::from_slice(alloc, b"main".as_slice())?));
    Ok(scope.function_number(&name).unwrap_or(0))
}

/// The parts of the code of a module.
fn lower_parts<'a>(
    alloc: Global,
    whole: &'a Module,
    shapes: &Shapes<'a>,
) -> Result<CodeParts, AllocError>
    requires layout { HasLayout whole.now }
    requires same { shapes.now ≡ whole.now.structs }
    ensures lowered { IfOk result (λ parts. lowering.IsLowered whole.now parts) }
    ensures row { IfOk result (λ parts. HasRow parts) }
{
    written_types_fit();
    let scope = Scope::new(alloc, whole, shapes)?;
    let listed = whole.functions.as_slice();
    let functions = lower_functions(alloc, &scope, listed)?;
    let row = small(row_of(functions.as_slice()))?;
    Ok(CodeParts {
        main: main_number(alloc, &scope)?,
        image: image_of(alloc, &scope, whole.globals.as_slice())?,
        names: names_of(alloc, listed)?,
        functions,
        row,
    })
}

/// What a module is lowered to.
fn lowered<'a>(alloc: Global, whole: &'a Module, shapes: &Shapes<'a>) -> Result<Code, AllocError>
    requires layout { HasLayout whole.now }
    requires same { shapes.now ≡ whole.now.structs }
    ensures { IfOk result (λ code. lowering.IsLowered whole.now code) }
{
    let parts = lower_parts(alloc, whole, shapes)?;
    Ok(Code::new(parts))
}

/// What a module is lowered to: for each of its instructions one. The shapes are the layout of the module. The code of
/// a well-formed module is its program, where it declares no function but the externals and `ds_note`; so is that of a
/// module that is accepted.
///
/// An `Err` stands for want of memory, as which a number or an address of code that does not fit its bits counts too.
/// No clause says when it comes; a test shows that it does not always come. The work for an accepted module of n bytes
/// is in the order of n log n, and for any other also in the order of the words of its globals. The stack that it takes
/// is in the order of the brackets that are open at once in one initialiser.
pub fn lower<'a>(alloc: Global, whole: &'a Module, shapes: &Shapes<'a>) -> Result<Code, AllocError>
    requires layout { HasLayout whole.now }
    requires same { shapes.now ≡ whole.now.structs }
    ensures lowered { IfOk result (λ code. lowering.IsLowered whole.now code) }
    ensures means { IfOk result (λ code. IsWellFormed whole.now → DeclaresKnown whole.now →
        (lim : Bounds) → program_of lim code ≡ meaning.program_of false lim whole.now) }
    ensures accepted { IfOk result (λ code. Accepted whole.now →
        (lim : Bounds) → program_of lim code ≡ meaning.program_of false lim whole.now) }
{
    code_means();
    accepted_code_means();
    let code = lowered(alloc, whole, shapes)?;
    Ok(code)
}
