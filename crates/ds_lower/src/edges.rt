//! Edges between blocks.
ghost use Rattle.std.specs.Prelude.{◌≡◌, ◌∷◌, ◌++◌, [], List, flat_map, map, IfOk, OnOk};
ghost use Rattle.ds_ast.specs.declared.name.Name.{Name as name};
ghost use Rattle.ds_code.specs.Cells.{cells_for};
ghost use Rattle.ds_code.specs.Lowering as lowering;

use crate::local::Local;
use crate::phis::Phi;
use crate::values::source_of;
use ds_ast::{List, Name, Scalar, Value};
use ds_code::{BranchOp, Case, CodeOp, Copying, Edge, Input};
use ds_lower_parts::{Scope, small};
use ds_names::Names;
use std::alloc::{AllocError, Global};

/// Adds the value that a phi takes where control comes from a block.
fn push_copy(
    scope: &Scope,
    local: &Local,
    from: &Name,
    phi: &Phi,
    copies: &mut List<Copying>,
) -> Result<(), AllocError>
    ensures { OnOk result (copies.new
        ≡ copies.old ++ lowering.copied_at scope.now (cells_for local.now) from.now phi.now) }
{
    if let Some(name) = phi.name() {
        if let Some(value) = phi.value_from(from) {
            copies.push(Copying {
                to: local.cell_of(name, 0),
                value: Input {
                    ty: phi.ty(),
                    from: source_of(scope, local, value),
                },
            })?;
        }
    }
    Ok(())
}

/// The values that phis take where control comes from a block.
fn copies_of(
    alloc: Global,
    scope: &Scope,
    local: &Local,
    from: &Name,
    phis: &[Phi],
) -> Result<List<Copying>, AllocError>
    ensures { IfOk result (λ copies. copies
        ≡ flat_map (lowering.copied_at scope.now (cells_for local.now) from.now) phis.now) }
{
    let mut copies = List::new(alloc);
    for phi in phis {
        push_copy(scope, local, from, phi, &mut copies)?;
    }
    Ok(copies)
}

/// The way from a block to another.
pub fn edge_to(
    alloc: Global,
    scope: &Scope,
    local: &Local,
    from: &Name,
    label: &Name,
) -> Result<Edge, AllocError>
    ensures { IfOk result (λ edge. edge ≡ lowering.edge_of scope.now local.now from.now label.now) }
{
    match local.block_number(label) {
        Some(number) => {
            let copies = copies_of(alloc, scope, local, from, local.phis(number))?;
            Ok(Edge {
                target: local.offset(number),
                copies,
            })
        }
        None => Ok(Edge {
            target: 0,
            copies: List::new(alloc),
        }),
    }
}

/// Adds the way to a block, if there is none yet.
fn push_edge<'n>(
    alloc: Global,
    scope: &Scope,
    local: &Local,
    from: &Name,
    label: &'n Name,
    labels: &mut Names<'n>,
    edges: &mut List<Edge>,
) -> Result<(), AllocError>
    ensures { OnOk result (edges.old ≡ map (lowering.edge_of scope.now local.now from.now) labels.old
        → (edges.new ≡ map (lowering.edge_of scope.now local.now from.now) labels.new)
        × (labels.new ≡ lowering.each_once labels.old (label.now ∷ []))) }
{
    if labels.put(label)? {
        let edge = edge_to(alloc, scope, local, from, label)?;
        edges.push(edge)?;
    }
    Ok(())
}

/// The place of a label.
fn edge_number(labels: &Names<'_>, label: &Name) -> Result<u32, AllocError>
    ensures { IfOk result (λ number. number ≡ lowering.edge_number labels.now label.now) }
{
    match labels.place(label) {
        Some(place) => small(place),
        None => Ok(0),
    }
}

/// The cases of a `switch`.
fn cases_of(
    alloc: Global,
    labels: &Names<'_>,
    cases: &[(u64, Name)],
) -> Result<List<Case>, AllocError>
    ensures { IfOk result (λ made. made ≡ map (lowering.case_of labels.now) cases.now) }
{
    let mut made = List::new(alloc);
    for n in 0..cases.len() {
        let edge = edge_number(labels, &cases[n].1)?;
        made.push(Case {
            number: cases[n].0,
            edge,
        })?;
    }
    Ok(made)
}

/// A `switch`. There is one edge for each block to which it may go.
pub fn switch_of(
    alloc: Global,
    scope: &Scope,
    local: &Local,
    from: &Name,
    ty: Scalar,
    value: &Value,
    other: &Name,
    cases: &[(u64, Name)],
) -> Result<CodeOp, AllocError>
    ensures { IfOk result (λ made. made
        ≡ lowering.switch_of scope.now local.now from.now ty value.now other.now cases.now) }
{
    let mut labels = Names::new(alloc);
    let mut edges = List::new(alloc);
    push_edge(alloc, scope, local, from, other, &mut labels, &mut edges)?;
    for n in 0..cases.len() {
        push_edge(
            alloc,
            scope,
            local,
            from,
            &cases[n].1,
            &mut labels,
            &mut edges,
        )?;
    }
    let number = edge_number(&labels, other)?;
    let made = cases_of(alloc, &labels, cases)?;
    Ok(CodeOp::Branch(BranchOp::Switch {
        ty,
        value: source_of(scope, local, value),
        edges,
        other: number,
        cases: made,
    }))
}
