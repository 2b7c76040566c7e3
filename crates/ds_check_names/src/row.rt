//! Local names in a row, each with its meaning.
ghost use Rattle.std.specs.Prelude.{◌≡◌, ◌∷◌, [], ◌++◌, OnOk, IfErr};
ghost use Rattle.ds_names.specs.Names.{AreDistinct};
ghost use Rattle.ds_check_names.specs.Entries.{names_of, meanings_of, parameter_entries, result_entries, code_entries};
ghost use Rattle.ds_check_names.specs.Entries.{block_entry, block_entries};
ghost use Rattle.ds_check_names.specs.Fault.{IsFaultOf};

use crate::fault::ScopeFault;
use crate::meaning::Meaning;
use crate::put::put;
use crate::results::result_type;
use ds_ast::{Block, Instr, Name, Param};
use ds_names::Names;
use ds_shape::LocalType;

/// Names, and their meanings in the same order.
#[derive(Drop)]
pub struct Row<'a> {
    /// The names, each once.
    pub names: Names<'a>,
    /// The meanings.
    pub meanings: Vec<Meaning>,
}

/// Puts a name and its meaning behind the others.
fn put_entry<'a>(row: &mut Row<'a>, name: &'a Name, meaning: Meaning) -> Result<(), ScopeFault<'a>>
    ensures names { OnOk result (row.new.names ≡ row.old.names ++ name.now ∷ []) }
    ensures meanings { OnOk result (row.new.meanings.items ≡ row.old.meanings.items ++ meaning ∷ []) }
    ensures each_once { OnOk result (AreDistinct row.new.names) }
    ensures refused { IfErr result (λ fault. IsFaultOf (row.old.names ++ name.now ∷ []) fault) }
{
    put(&mut row.names, name)?;
    match row.meanings.push(meaning) {
        Ok(()) => Ok(()),
        Err(_) => Err(ScopeFault::Memory),
    }
}

/// Puts parameters behind the others.
pub fn put_parameters<'a>(row: &mut Row<'a>, params: &'a [Param]) -> Result<(), ScopeFault<'a>>
    ensures names { OnOk result (row.new.names ≡ row.old.names ++ names_of (parameter_entries params.now)) }
    ensures meanings { OnOk result (row.new.meanings.items ≡ row.old.meanings.items ++ meanings_of (parameter_entries
        params.now)) }
    ensures each_once { OnOk result (AreDistinct row.old.names → AreDistinct row.new.names) }
    ensures refused { IfErr result
        (λ fault. IsFaultOf (row.old.names ++ names_of (parameter_entries params.now)) fault) }
{
    for param in params {
        put_entry(
            row,
            &param.name,
            Meaning::Parameter(LocalType::Plain(param.ty)),
        )?;
    }
    Ok(())
}

/// Puts the result of an instruction behind the others, if it has one. It is that of this number in the block of this
/// number.
fn put_result<'a>(
    row: &mut Row<'a>,
    block: usize,
    index: usize,
    instr: &'a Instr,
) -> Result<(), ScopeFault<'a>>
    ensures names { OnOk result (row.new.names ≡ row.old.names ++ names_of (result_entries block index instr.now)) }
    ensures meanings { OnOk result (row.new.meanings.items ≡ row.old.meanings.items ++ meanings_of (result_entries
        block index instr.now)) }
    ensures each_once { OnOk result (AreDistinct row.old.names → AreDistinct row.new.names) }
    ensures refused { IfErr result
        (λ fault. IsFaultOf (row.old.names ++ names_of (result_entries block index instr.now)) fault) }
{
    match &instr.result {
        Some(name) => {
            let ty = result_type(&instr.op);
            put_entry(row, name, Meaning::Result { ty, block, index })
        }
        None => Ok(()),
    }
}

/// Puts the results of a block's instructions behind the others. The block has this number.
fn put_results<'a>(row: &mut Row<'a>, block: usize, code: &'a [Instr]) -> Result<(), ScopeFault<'a>>
    ensures names { OnOk result (row.new.names ≡ row.old.names ++ names_of (code_entries block 0 code.now)) }
    ensures meanings { OnOk result (row.new.meanings.items ≡ row.old.meanings.items ++ meanings_of (code_entries block
        0 code.now)) }
    ensures each_once { OnOk result (AreDistinct row.old.names → AreDistinct row.new.names) }
    ensures refused { IfErr result
        (λ fault. IsFaultOf (row.old.names ++ names_of (code_entries block 0 code.now)) fault) }
{
    for index in 0..code.len() {
        put_result(row, block, index, &code[index])?;
    }
    Ok(())
}

/// Puts a block of this number behind the others: its label and its results.
fn put_block<'a>(row: &mut Row<'a>, number: usize, block: &'a Block) -> Result<(), ScopeFault<'a>>
    ensures names { OnOk result (row.new.names ≡ row.old.names ++ names_of (block_entry number block.now)) }
    ensures meanings { OnOk result (row.new.meanings.items ≡ row.old.meanings.items ++ meanings_of (block_entry number
        block.now)) }
    ensures each_once { OnOk result (AreDistinct row.old.names → AreDistinct row.new.names) }
    ensures refused { IfErr result
        (λ fault. IsFaultOf (row.old.names ++ names_of (block_entry number block.now)) fault) }
{
    put_entry(row, &block.name, Meaning::Label(number))?;
    put_results(row, number, block.code.as_slice())
}

/// Puts blocks, of which the first has the number 0, behind the others.
pub fn put_blocks<'a>(row: &mut Row<'a>, blocks: &'a [Block]) -> Result<(), ScopeFault<'a>>
    ensures names { OnOk result (row.new.names ≡ row.old.names ++ names_of (block_entries 0 blocks.now)) }
    ensures meanings { OnOk result (row.new.meanings.items ≡ row.old.meanings.items ++ meanings_of (block_entries 0
        blocks.now)) }
    ensures each_once { OnOk result (AreDistinct row.old.names → AreDistinct row.new.names) }
    ensures refused { IfErr result
        (λ fault. IsFaultOf (row.old.names ++ names_of (block_entries 0 blocks.now)) fault) }
{
    for number in 0..blocks.len() {
        put_block(row, number, &blocks[number])?;
    }
    Ok(())
}
