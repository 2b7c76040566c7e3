//! The entities of a module, one after another.
ghost use Rattle.std.specs.Prelude.{◌≡◌, IfOk};
ghost use Rattle.ds_grammar.specs.Reading.{Gives, first_value, value_at};
ghost use Rattle.ds_grammar.specs.Functions as functions;

use crate::lines::{attributes_line, metadata_line, target_line, text_line};
use crate::parts::Parts;
use ds_grammar::{Entity, ParseFault, items_take_tokens, runs_go_on};
use ds_lex::TokenKind;
use ds_parse_function::{declare_line, define_line};
use ds_parse_global::{global_line, struct_line};
use ds_parse_parts::{Rest, token_name};
use std::alloc::{AllocError, Global};

/// The entity that a word begins, if it begins one.
fn entity_word(bytes: &[u8]) -> Option<Entity>
    ensures { result ≡ functions.entity_word bytes.now }
{
    if bytes == b"source_filename".as_slice() {
        Some(Entity::SourceFilename)
    } else if bytes == b"target".as_slice() {
        Some(Entity::Target)
    } else if bytes == b"declare".as_slice() {
        Some(Entity::Declare)
    } else if bytes == b"define".as_slice() {
        Some(Entity::Define)
    } else if bytes == b"attributes".as_slice() {
        Some(Entity::Attributes)
    } else {
        None
    }
}

/// The entity that a token begins, if it begins one.
fn entity_of(alloc: Global, kind: TokenKind, bytes: &[u8]) -> Result<Option<Entity>, AllocError>
    ensures { IfOk result (λ entity. entity ≡ functions.entity_of kind bytes.now) }
{
    match kind {
        TokenKind::Word => Ok(entity_word(bytes)),
        TokenKind::Local => match token_name(alloc, bytes)? {
            Some(name) => Ok(Some(Entity::Struct(name))),
            None => Ok(None),
        },
        TokenKind::Global => match token_name(alloc, bytes)? {
            Some(name) => Ok(Some(Entity::Global(name))),
            None => Ok(None),
        },
        TokenKind::Meta => Ok(Some(Entity::Metadata)),
        _ => Ok(None),
    }
}

/// The entity that the next token begins, if it begins one.
fn next_entity(alloc: Global, rest: &Rest) -> Result<Option<Entity>, AllocError>
    ensures { IfOk result (λ entity. entity ≡ first_value (λ t. functions.entity_of t.kind t.bytes) rest.now.left) }
{
    match rest.peek() {
        Some((kind, bytes, _)) => entity_of(alloc, kind, bytes),
        None => Ok(None),
    }
}

/// The parts with one entity more, of which the first token was read.
fn entity_rest<'a>(
    alloc: Global,
    parts: Parts,
    entity: Entity,
    rest: Rest<'a>,
) -> Result<(Parts, Rest<'a>), ParseFault>
    ensures { Gives result (value_at (functions.entity_rest parts entity) rest.entry) }
{
    match entity {
        Entity::SourceFilename => {
            let rest = text_line(rest)?;
            Ok((parts, rest))
        }
        Entity::Target => {
            let rest = target_line(rest)?;
            Ok((parts, rest))
        }
        Entity::Struct(name) => {
            let (line, rest) = struct_line(alloc, name, rest)?;
            Ok((parts.with_struct(line)?, rest))
        }
        Entity::Global(name) => {
            let (line, rest) = global_line(alloc, parts.structs(), name, rest)?;
            Ok((parts.with_global(line)?, rest))
        }
        Entity::Declare => {
            let (function, rest) = declare_line(alloc, rest)?;
            Ok((parts.with_function(function)?, rest))
        }
        Entity::Define => {
            let (function, rest) = define_line(alloc, rest)?;
            Ok((parts.with_function(function)?, rest))
        }
        Entity::Attributes => {
            let rest = attributes_line(alloc, rest)?;
            Ok((parts, rest))
        }
        Entity::Metadata => {
            let rest = metadata_line(alloc, rest)?;
            Ok((parts, rest))
        }
    }
}

/// The parts of a module, up to a token that begins no entity.
#[tactic(auto, unfolding(ds_grammar::specs::Functions::module_text))]
pub fn module_parts<'a>(alloc: Global, rest: Rest<'a>) -> Result<(Parts, Rest<'a>), ParseFault>
    ensures { Gives result (value_at functions.module_text rest.entry) }
{
    runs_go_on();
    items_take_tokens();
    let mut rest = rest;
    let mut parts = Parts::new(alloc);
    while let Some(entity) = next_entity(alloc, &rest)? {
        let (more, behind) = entity_rest(alloc, parts, entity, rest.past())?;
        parts = more;
        rest = behind;
    }
    Ok((parts, rest))
}
