//! The rules of one function.
ghost use Rattle.std.specs.Prelude.{◌≡◌, ◌<◌, ◌≤◌, ◌^◌, ◌⊎◌, [], All, IfErr, IfOk, length};
ghost use Rattle.ds_ast.specs.declared.module.Module.{Module as whole};
ghost use Rattle.ds_ast.specs.Bounds.{Bounds};
ghost use Rattle.ds_names.specs.Names.{AreDistinct};
ghost use Rattle.ds_shape.specs.Types.{Stands};
ghost use Rattle.ds_shape.specs.Accepted.{local_names, IsGoodFunction};
ghost use Rattle.ds_shape.specs.Placed.{placed_of, KeepsAssigned};
ghost use Rattle.ds_check_blocks.specs.Edges.{AreEdgesOf};
ghost use Rattle.ds_check.specs.Broken.{fault_at, IsFirstBroken};
ghost use Rattle.ds_check.specs.Fault.{HasFunctionFault, HasLabels, KeepsAll};
ghost use Rattle.ds_check.specs.declared.fault.TypeFault.TheVariants as faults;

use crate::fault::TypeFault;
use crate::fronts::fronts;
use crate::instr::{Judge, Rule};
use crate::instructions::first_broken_instruction;
use ds_ast::{Function, Name, Part};
use ds_check_blocks::{Sites, edges_of, first_bad_label, predecessors_of};
use ds_check_names::{Entities, Locals, ScopeFault};
use ds_check_paths::first_unassigned;
use ds_graph::Graph;
use ds_shape::Shapes;
use std::alloc::Global;

/// The fault that a local name stands twice in a function.
fn twice_local(alloc: Global, f: u32, name: &Name) -> TypeFault
    ensures { (result ≡ faults.Memory) ⊎ (result ≡ faults.TwiceLocal f name.now) }
{
    match name.duplicate(alloc) {
        Ok(name) => TypeFault::TwiceLocal { f, name },
        Err(_) => TypeFault::Memory,
    }
}

/// The local names of a function, which has this number.
fn locals_of<'a>(alloc: Global, function: &'a Function, f: u32) -> Result<Locals<'a>, TypeFault>
    ensures named { IfOk result (λ locals. (locals ≡ function.now) × AreDistinct (local_names function.now)) }
    ensures refused { (m : whole) → IfErr result (λ fault. (fault ≡ faults.Memory)
        ⊎ HasFunctionFault m f function.now fault) }
{
    match Locals::new(alloc, function) {
        Ok(locals) => Ok(locals),
        Err(ScopeFault::Twice(name)) => Err(twice_local(alloc, f, name)),
        Err(ScopeFault::Memory) => Err(TypeFault::Memory),
    }
}

/// The fault of an instruction that breaks this rule.
fn broken_fault(f: u32, i: u32, rule: Rule) -> TypeFault
    ensures { result ≡ fault_at f i rule }
{
    match rule {
        Rule::Defined => TypeFault::Undefined { f, i },
        Rule::Typed => TypeFault::WrongType { f, i },
        Rule::GoodPhi => TypeFault::BadPhi { f, i },
    }
}

/// The first fault of the instructions of a function, of those of one instruction.
fn check_instructions<'a>(
    alloc: Global,
    entities: &Entities<'a>,
    shapes: &Shapes<'a>,
    function: &'a Function,
    locals: &Locals<'a>,
    sites: &Sites<'a>,
    graph: &Graph,
    f: u32,
) -> Result<(), TypeFault>
    requires shapes { shapes.now ≡ entities.now.structs }
    requires same { (locals.now ≡ function.now) × (sites.now ≡ function.now) }
    requires edges { AreEdgesOf function.now graph.now }
    requires labels { HasLabels function.now }
    requires few { (length function.now.blocks < 2 ^ 32) × (length (placed_of function.now) < 2 ^ 32) }
    ensures kept { IfOk result (λ _. All (KeepsAll entities.now function.now) (placed_of function.now)) }
    ensures refused { IfErr result (λ fault. (fault ≡ faults.Memory)
        ⊎ HasFunctionFault entities.now f function.now fault) }
{
    let predecessors = predecessors_of(alloc, graph)?;
    let fronts = fronts(alloc, function.blocks.as_slice())?;
    let judge = Judge {
        entities,
        shapes,
        function,
        locals,
        predecessors: &predecessors,
        fronts: fronts.as_slice(),
    };
    match first_broken_instruction(alloc, &judge, sites)? {
        Some(broken) => Err(broken_fault(f, broken.number as u32, broken.rule)),
        None => Ok(()),
    }
}

/// The first fault of a function whose local names are distinct and whose labels are good.
fn check_body<'a>(
    alloc: Global,
    entities: &Entities<'a>,
    shapes: &Shapes<'a>,
    function: &'a Function,
    locals: &Locals<'a>,
    sites: &Sites<'a>,
    f: u32,
) -> Result<(), TypeFault>
    requires shapes { shapes.now ≡ entities.now.structs }
    requires same { (locals.now ≡ function.now) × (sites.now ≡ function.now) }
    requires labels { HasLabels function.now }
    requires defined { function.now.blocks ≡ [] → ⊥ }
    requires few { (length function.now.blocks < 2 ^ 32) × (length (placed_of function.now) < 2 ^ 32) }
    ensures kept { IfOk result (λ _. All (KeepsAll entities.now function.now) (placed_of function.now)
        × All (KeepsAssigned function.now) (placed_of function.now)) }
    ensures refused { IfErr result (λ fault. (fault ≡ faults.Memory)
        ⊎ HasFunctionFault entities.now f function.now fault) }
{
    let graph = edges_of(alloc, function, locals)?;
    check_instructions(alloc, entities, shapes, function, locals, sites, &graph, f)?;
    match first_unassigned(alloc, function, locals, sites, &graph)? {
        Some(i) => Err(TypeFault::NotDominating { f, i: i as u32 }),
        None => Ok(()),
    }
}

/// The first fault of a function that is defined. `f` is its number in the module.
pub fn check_function<'a>(
    alloc: Global,
    entities: &Entities<'a>,
    shapes: &Shapes<'a>,
    function: &'a Function,
    f: u32,
) -> Result<(), TypeFault>
    requires bounds { Bounds entities.now }
    requires shapes { shapes.now ≡ entities.now.structs }
    requires stands { Stands function.now entities.now.functions }
    requires defined { function.now.blocks ≡ [] → ⊥ }
    requires few { (length function.now.blocks < 2 ^ 32) × (length (placed_of function.now) < 2 ^ 32) }
    ensures good { IfOk result (λ _. IsGoodFunction entities.now function.now) }
    ensures refused { IfErr result (λ fault. (fault ≡ faults.Memory)
        ⊎ HasFunctionFault entities.now f function.now fault) }
{
    let locals = match locals_of(alloc, function, f) {
        Ok(locals) => locals,
        Err(fault) => return Err(fault),
    };
    let sites = Sites::new(alloc, function)?;
    match first_bad_label(function, &sites, &locals) {
        Some(i) => Err(TypeFault::BadBlock { f, i: i as u32 }),
        None => check_body(alloc, entities, shapes, function, &locals, &sites, f),
    }
}
