//! The instruction at a place of a text's tokens.
ghost use Rattle.std.specs.Prelude.{◌≡◌, ℕ, ◌+◌, ◌<◌, ◌≤◌, ◌⊎◌, length, Err, IfOk, IfErr, OnErr, MatchResult, OnOk};
ghost use Rattle.ds_ast.specs.declared.instr.Instr.{Instr};
ghost use Rattle.ds_lex.specs.Lexed.{Lexed};
ghost use Rattle.ds_grammar.specs.Lexemes.{lexemes_from};
ghost use Rattle.ds_grammar.specs.Parsed.{Spells, Refuses, Settles, answer};
ghost use Rattle.ds_grammar.specs.Reading.{value_at};
ghost use Rattle.ds_grammar.specs.Instructions as instructions;

use crate::dispatch::instruction;
use ds_ast::Instr;
use ds_grammar::{ParseFault, answers_are_exact, tokens_lie_inside};
use ds_lex::Tokens;
use ds_parse_parts::Rest;
use std::alloc::Global;

/// The instruction that the tokens from `at` on spell, up to the first dead end.
///
/// `Ok` comes exactly where the tokens before the dead end spell one within its bounds, and they are then taken.
/// `Expected` and
/// `Unsupported` stand at the dead end, `Range` at a number before it that is out of its range, `DeepType` at a type
/// before it
/// that nests too deep. `Memory` comes where there is not enough memory. After a fault `at` is unchanged.
pub fn parse_instr(
    alloc: Global,
    text: &[u8],
    tokens: &Tokens,
    at: &mut usize,
) -> Result<Instr, ParseFault>
    requires small { length text.now ≤ 8388608 }
    requires lexed { Lexed text.now tokens.now }
    requires within { at.old < length tokens.now }
    ensures spelled { IfOk result
        (λ instr. (n : ℕ) × Spells instructions.instruction (lexemes_from text.now tokens.now at.old) instr n
        × (at.new ≡ at.old + n)) }
    ensures only { (instr : Instr) (n : ℕ)
        → Spells instructions.instruction (lexemes_from text.now tokens.now at.old) instr n →
        MatchResult result (λ found. found ≡ instr) (λ f. f ≡ ParseFault.Memory) }
    ensures refused { IfErr result
        (λ f. (f ≡ ParseFault.Memory)
        ⊎ Refuses instructions.instruction (lexemes_from text.now tokens.now at.old) (length text.now) f) }
    // The tokens have one fault at most, and it is told, if there is memory.
    ensures only_fault { (fault : ParseFault)
        → Refuses instructions.instruction (lexemes_from text.now tokens.now at.old) (length text.now) fault →
        (result ≡ Err fault) ⊎ (result ≡ Err ParseFault.Memory) }
    ensures kept { OnErr result (at.new ≡ at.old) }
{
    answers_are_exact();
    tokens_lie_inside();
    let all = tokens.as_slice();
    let end = all.len() - 1;
    let (instr, left) = whole_instr(alloc, Rest::new(text, &all[*at..end]))?;
    *at = end - left;
    Ok(instr)
}

/// The instruction that these tokens spell, with all marks, and how many tokens are left.
fn whole_instr(alloc: Global, rest: Rest<'_>) -> Result<(Instr, usize), ParseFault>
    ensures { Settles result (answer (value_at instructions.instruction rest.entry)) }
{
    let (instr, rest) = instruction(alloc, rest)?;
    rest.finish(instr)
}
