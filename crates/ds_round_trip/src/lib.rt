//! From a module to its canonical text and back.
#![tactic(auto)]

ghost use Rattle.std.specs.Prelude.{◌≡◌, ◌≤◌, length, MatchResult};
ghost use Rattle.ds_ast.specs.Bounds.{Bounds};
ghost use Rattle.ds_print.specs.Canonical.{canon};

use ds_ast::Module;
use ds_grammar::ParseFault;
use ds_parse::parse;
use ds_print::print;
use ds_print_laws::canonical_texts_are_parsed;
use std::alloc::Global;

#[cfg(test)]
mod tests;

/// The module that `parse` gives of the text that `print` gives of a module: the same module. `Memory` comes where
/// there is not enough memory.
pub fn parse_printed(alloc: Global, module: &Module) -> Result<Module, ParseFault>
    requires bounds { Bounds «module».now }
    requires small { length (canon «module».now) ≤ 8388608 }
    ensures { MatchResult result (λ found. found ≡ «module».now) (λ fault. fault ≡ ParseFault.Memory) }
{
    canonical_texts_are_parsed();
    let text = print(alloc, module)?;
    parse(alloc, text.as_slice())
}
