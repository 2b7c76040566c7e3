//! The module of a text.
ghost use Rattle.std.specs.Prelude.{◌≡◌, ◌≤◌, ◌<◌, ◌⊎◌, length, Err, IfOk, IfErr, MatchResult};
ghost use Rattle.ds_ast.specs.declared.module.Module.{Module};
ghost use Rattle.ds_lex.specs.Lexed.{Lexed};
ghost use Rattle.ds_grammar.specs.Lexemes.{lexemes_from};
ghost use Rattle.ds_grammar.specs.Parsed.{SpellWhole, RefuseWhole, Settles, whole_answer};
ghost use Rattle.ds_grammar.specs.Reading.{value_at};
ghost use Rattle.ds_grammar.specs.Functions.{module_text, Text};
ghost use Rattle.ds_parse.specs.Faults.{HasParseFault, parse_fault};

use crate::entities::module_parts;
use ds_ast::Module;
use ds_grammar::{ParseFault, tokens_lie_inside, whole_answers_are_exact};
use ds_lex::{LexFault, Tokens, lex, tokens_are_unique, tokens_or_fault};
use ds_parse_parts::Rest;
use std::alloc::Global;

/// The module that a text of at most 8,388,608 bytes spells.
///
/// `Ok` comes exactly where the text spells a module within its bounds. `Lex` names the text's lexical fault, which
/// comes first. Else the fault is
/// that of the tokens before the first dead end, which is the first token such that no module begins with the tokens
/// up to it: the least place decides. `Expected` and `Unsupported` stand at the dead end, `Range` at a number that is
/// out of its range, `DeepType` at a type or an initialiser that nests too deep. `Memory` comes where there is not
/// enough memory.
pub fn parse(alloc: Global, text: &[u8]) -> Result<Module, ParseFault>
    requires { length text.now ≤ 8388608 }
    ensures spelled { IfOk result (λ m. Text text.now m) }
    // A text spells one module at most, and each text that spells one is read, if there is memory.
    ensures only { (m : Module) → Text text.now m
        → MatchResult result (λ found. found ≡ m) (λ f. f ≡ ParseFault.Memory) }
    ensures refused { IfErr result (λ f. (f ≡ ParseFault.Memory) ⊎ HasParseFault text.now f) }
    // A text has one fault at most, and it is told, if there is memory.
    ensures only_fault { (fault : ParseFault) → HasParseFault text.now fault → (result ≡ Err fault)
        ⊎ (result ≡ Err ParseFault.Memory) }
{
    tokens_are_unique();
    tokens_or_fault();
    match lex(alloc, text) {
        Ok(tokens) => module_of(alloc, text, &tokens),
        Err(fault) => Err(lexical(fault)),
    }
}

/// The fault of the parser by that of the lexer.
fn lexical(fault: LexFault) -> ParseFault
    ensures { result ≡ parse_fault fault }
{
    match fault {
        LexFault::Memory => ParseFault::Memory,
        other => ParseFault::Lex(other),
    }
}

/// The module of a text that has these tokens.
fn module_of(alloc: Global, text: &[u8], tokens: &Tokens) -> Result<Module, ParseFault>
    requires small { length text.now ≤ 8388608 }
    requires lexed { Lexed text.now tokens.now }
    ensures spelled { IfOk result (λ m. SpellWhole module_text (lexemes_from text.now tokens.now 0) m) }
    ensures only { (m : Module) → SpellWhole module_text (lexemes_from text.now tokens.now 0) m
        → MatchResult result (λ found. found ≡ m) (λ f. f ≡ ParseFault.Memory) }
    ensures refused { IfErr result
        (λ f. (f ≡ ParseFault.Memory)
        ⊎ RefuseWhole module_text (lexemes_from text.now tokens.now 0) (length text.now) f) }
    ensures only_fault { (f : ParseFault)
        → RefuseWhole module_text (lexemes_from text.now tokens.now 0) (length text.now) f →
        (result ≡ Err f) ⊎ (result ≡ Err ParseFault.Memory) }
{
    tokens_lie_inside();
    whole_answers_are_exact();
    let all = tokens.as_slice();
    whole_module(alloc, Rest::new(text, &all[..all.len() - 1]))
}

/// The module that all these tokens spell, with all marks.
fn whole_module(alloc: Global, rest: Rest<'_>) -> Result<Module, ParseFault>
    ensures { Settles result (whole_answer (value_at module_text rest.entry)) }
{
    let (parts, rest) = module_parts(alloc, rest)?;
    rest.finish_whole(parts.into_module())
}
