//! The phis at the front of blocks.
ghost use Rattle.std.specs.Prelude.{◌≡◌, ◌∷◌, ◌++◌, [], option_copied, IfOk, OnOk};
ghost use Rattle.std.specs.Option.{is_some};
ghost use Rattle.ds_meaning.specs.Control.{choice_of};
ghost use Rattle.ds_code.specs.Lowering.{front};
ghost use Rattle.ds_lower.specs.Known.{labels_of, phi_arm, value_in};

use ds_ast::{Arm, Instr, Name, Op, Scalar, Value};
use ds_lower_parts::FirstPlaces;
use std::alloc::{AllocError, Global};
use std::marker::Model;

/// A phi with the places of its labels. Contracts see the instruction.
#[derive(Drop)]
pub struct Phi<'a> {
    instr: &'a Instr,
    ty: Scalar,
    arms: &'a [Arm],
    labels: FirstPlaces<'a>,
}

impl<'a> Model for Phi<'a> {
    ghost use Rattle.ds_ast.specs.declared.instr.Instr.{Instr};
    ghost use Rattle.ds_ast.specs.contracts.instr.Instr as row;
    ghost use Rattle.ds_lower.specs.Known.{IsPhiOf};

    ghost Value = { Instr };

    ghost coded = { row.the_row.coded };

    ghost view = { λ p. p.instr.now };

    ghost invariant = { λ p. IsPhiOf p.instr.now p.ty p.arms.now p.labels };
}

/// The labels of a phi's arms.
fn labels_of<'a>(alloc: Global, arms: &'a [Arm]) -> Result<FirstPlaces<'a>, AllocError>
    ensures { IfOk result (λ labels. labels ≡ labels_of arms.now) }
{
    let mut names = Vec::new(alloc);
    for arm in arms {
        names.push(&arm.from)?;
    }
    FirstPlaces::new(alloc, names)
}

/// The value of an arm, by its number.
fn value_in(arms: &[Arm], number: usize) -> Option<&Value>
    ensures { option_copied result ≡ value_in arms.now number }
{
    match arms.get(number) {
        Some(arm) => Some(&arm.value),
        None => None,
    }
}

impl<'a> Phi<'a> {
    ghost use Rattle.ds_lower.specs.Known.{type_in};

    /// The name of its result, if it has one.
    pub fn name(&self) -> &'a Option<Name>
        ensures { result.now ≡ self.now.result }
    {
        &self.instr.result
    }

    /// The type of its values.
    pub fn ty(&self) -> Scalar
        ensures { result ≡ type_in self.now }
    {
        self.ty
    }

    /// Its value where control comes from a block.
    pub fn value_from(&self, from: &Name) -> Option<&'a Value>
        ensures { option_copied result ≡ phi_arm self.now from.now }
    {
        match self.labels.place(from) {
            Some(number) => value_in(self.arms, number as usize),
            None => None,
        }
    }
}

/// Adds the phi that an instruction is, and says whether it is one.
fn push_phi<'a>(
    alloc: Global,
    phis: &mut Vec<Phi<'a>>,
    instr: &'a Instr,
) -> Result<bool, AllocError>
    ensures phi { OnOk result (phis.new.items ≡ phis.old.items ++ front (instr.now ∷ [])) }
    ensures told { IfOk result (λ told. told ≡ is_some (choice_of instr.now.op)) }
{
    match &instr.op {
        Op::Phi { ty, arms } => {
            let arms = arms.as_slice();
            let labels = labels_of(alloc, arms)?;
            phis.push(Phi {
                instr,
                ty: *ty,
                arms,
                labels,
            })?;
            Ok(true)
        }
        _ => Ok(false),
    }
}

/// Adds the phis at the front of these instructions.
#[tactic(auto, using(crate::proofs::Fronts::phis_on, crate::proofs::Fronts::phis_end))]
fn push_front<'a>(
    alloc: Global,
    phis: &mut Vec<Phi<'a>>,
    code: &'a [Instr],
) -> Result<(), AllocError>
    ensures { OnOk result (phis.new.items ≡ phis.old.items ++ front code.now) }
{
    for n in 0..code.len() {
        if !push_phi(alloc, phis, &code[n])? {
            return Ok(());
        }
    }
    Ok(())
}

/// The phis at the front of a block. Contracts see the instructions.
#[derive(Drop)]
pub struct Front<'a> {
    phis: Vec<Phi<'a>>,
}

impl<'a> Model for Front<'a> {
    ghost use Rattle.std.specs.Prelude.{List};
    ghost use Rattle.std.specs.Coded.{coded_list};
    ghost use Rattle.ds_ast.specs.declared.instr.Instr.{Instr};
    ghost use Rattle.ds_ast.specs.contracts.instr.Instr as row;

    ghost Value = { List Instr };

    ghost coded = { coded_list row.the_row.coded };

    ghost view = { λ f. f.phis.items };
}

impl<'a> Front<'a> {
    /// The phis at the front of these instructions.
    pub fn new(alloc: Global, code: &'a [Instr]) -> Result<Front<'a>, AllocError>
        ensures { IfOk result (λ row. row ≡ front code.now) }
    {
        let mut phis = Vec::new(alloc);
        push_front(alloc, &mut phis, code)?;
        Ok(Front { phis })
    }

    /// The phis, one after another.
    pub fn as_slice(&self) -> &[Phi<'a>]
        ensures { result.now ≡ self.now }
    {
        self.phis.as_slice()
    }
}
