//! Why an input gives no accepted module.

ghost use Rattle.std.specs.Prelude.{◌≡◌, ◌⊎◌, ◌↔◌, IsTrue};
ghost use Rattle.ds_grammar.specs.declared.fault.ParseFault.TheVariants as parse;
ghost use Rattle.ds_lex.specs.declared.fault.LexFault.TheVariants as lex;
ghost use Rattle.ds_shape.specs.declared.fault.ShapeFault.TheVariants as shape;
ghost use Rattle.ds_check.specs.declared.fault.TypeFault.TheVariants as check;
ghost use Rattle.ds_main.specs.Due.{IsWantOfMemory};
ghost use Rattle.ds_main.specs.Stopped.{Tells};

use ds_check::TypeFault;
use ds_grammar::ParseFault;
use ds_lex::LexFault;
use ds_report::Fault;
use ds_shape::ShapeFault;

/// Why an input gives no accepted module.
#[derive(Debug, Drop)]
pub enum NoModule {
    /// It has this fault, which is not want of memory.
    Refused(Fault),
    /// Memory ran out.
    Memory,
}

/// Whether a lexer ran out of memory.
fn lexer_ran_out(fault: &LexFault) -> bool
    ensures { IsTrue result ↔ (fault.now ≡ lex.Memory) }
{
    matches!(fault, LexFault::Memory)
}

/// Whether a parser ran out of memory.
fn parser_ran_out(fault: &ParseFault) -> bool
    ensures { IsTrue result ↔ ((fault.now ≡ parse.Memory) ⊎ (fault.now ≡ parse.Lex lex.Memory)) }
{
    match fault {
        ParseFault::Lex(fault) => lexer_ran_out(fault),
        ParseFault::Memory => true,
        _ => false,
    }
}

/// Whether a layout ran out of memory.
fn layout_ran_out(fault: &ShapeFault) -> bool
    ensures { IsTrue result ↔ (fault.now ≡ shape.Memory) }
{
    matches!(fault, ShapeFault::Memory)
}

/// Whether a check ran out of memory.
fn check_ran_out(fault: &TypeFault) -> bool
    ensures { IsTrue result ↔ (fault.now ≡ check.Memory) }
{
    matches!(fault, TypeFault::Memory)
}

/// Whether a fault is want of memory.
fn is_want_of_memory(fault: &Fault) -> bool
    ensures { IsTrue result ↔ IsWantOfMemory fault.now }
{
    match fault {
        Fault::Parse(fault) => parser_ran_out(fault),
        Fault::Shape(fault) => layout_ran_out(fault),
        Fault::Check(fault, _) => check_ran_out(fault),
        Fault::Usage | Fault::Read | Fault::TooLong => false,
    }
}

/// A fault as why there is no module; want of memory stands for itself.
pub fn no_module(fault: Fault) -> NoModule
    ensures { Tells fault result }
{
    if is_want_of_memory(&fault) {
        NoModule::Memory
    } else {
        NoModule::Refused(fault)
    }
}
