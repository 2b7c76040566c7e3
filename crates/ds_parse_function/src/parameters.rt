//! The parameters of a definition.
ghost use Rattle.std.specs.Prelude.{◌≡◌, [], IfOk};
ghost use Rattle.std.specs.Option.{option_to_list};
ghost use Rattle.ds_grammar.specs.Reading.{Gives, first_value, value_at};
ghost use Rattle.ds_grammar.specs.Reading as reading;
ghost use Rattle.ds_grammar.specs.Functions as functions;
ghost use Rattle.ds_parse_function.specs.Runs as runs;

use crate::declared::next_parameter;
use crate::names::{counted, numbered, risen, taken_mark, written_mark};
use ds_ast::{List, Name, Param, Scalar};
use ds_grammar::{
    Mark, ParseFault, items_take_tokens, marks_are_read, optionals_are_read, runs_go_on,
};
use ds_lex::TokenKind;
use ds_parse_parts::{Rest, ignored_run, local_name, punct, scalar_of};
use std::alloc::{AllocError, Global};
use std::marker::Model;

/// The parameters of a function so far. Contracts see them with their counter.
#[derive(Drop)]
pub struct CountedParameters {
    /// The parameters.
    params: List<Param>,
    /// The counter of the function's names.
    counter: u64,
    /// The mark of the number that the last parameter takes where it ends, if its name is not written.
    pending: Option<Mark>,
}

impl Model for CountedParameters {
    ghost use Rattle.std.specs.Option.{option_to_list};
    ghost use Rattle.ds_grammar.specs.Sort.{Params};

    ghost Value = { Params };

    ghost view = { λ p. record { params = p.params; counter = p.counter; pending = option_to_list p.pending } };
}

impl CountedParameters {
    /// No parameters.
    pub fn new(alloc: Global) -> CountedParameters
        ensures { result ≡ record { params = []; counter = 0; pending = [] } }
    {
        CountedParameters {
            params: List::new(alloc),
            counter: 0,
            pending: None,
        }
    }

    /// The parameters and the counter behind them.
    pub fn into_parts(self) -> (List<Param>, u64)
        ensures { result ≡ (self.params, self.counter) }
    {
        let CountedParameters {
            params,
            counter,
            ..
        } = self;
        (params, counter)
    }

    /// What begins the next parameter behind these, if there is one.
    fn next(&self, rest: &Rest) -> Option<Option<(Scalar, u32)>>
        ensures { result ≡ first_value
            (λ t. functions.next_parameter self.now.params t.kind t.bytes t.at) rest.now.left }
    {
        next_parameter(&self.params, rest)
    }

    /// The place with the mark that the last parameter takes where it ends.
    fn settled<'a>(&self, rest: Rest<'a>) -> Rest<'a>
        ensures { result ≡ reading.marked_all rest.entry self.now.pending }
    {
        rest.marked_by(self.pending)
    }

    /// These parameters with one more, which begins at its type.
    fn with(
        self,
        ty: (Scalar, u32),
        name: Option<(Name, u32)>,
    ) -> Result<CountedParameters, AllocError>
        ensures { IfOk result (λ more. more ≡ functions.with_parameter self ty name) }
    {
        let CountedParameters {
            params,
            counter,
            ..
        } = self;
        let (ty, at) = ty;
        let mut params = params;
        match name {
            Some((name, _)) => {
                let counter = counted(&name, counter);
                params.push(Param { name, ty })?;
                Ok(CountedParameters {
                    params,
                    counter,
                    pending: None,
                })
            }
            None => {
                params.push(Param {
                    name: numbered(counter),
                    ty,
                })?;
                Ok(CountedParameters {
                    params,
                    counter: risen(counter),
                    pending: Some(taken_mark(at, counter)),
                })
            }
        }
    }

    /// The place with the mark of a name, where it is written.
    fn named<'a>(&self, name: &Option<(Name, u32)>, rest: Rest<'a>) -> Rest<'a>
        ensures { result ≡ reading.marked_all rest.entry (functions.name_marks self.now name.now) }
    {
        match name {
            Some((name, at)) => rest.marked(written_mark(*at, name, self.counter)),
            None => rest,
        }
    }
}

/// A local name with its place, if a token is one.
fn placed_name(
    alloc: Global,
    kind: TokenKind,
    bytes: &[u8],
    at: u32,
) -> Result<Option<(Name, u32)>, AllocError>
    ensures { IfOk result (λ name. name ≡ functions.placed_name kind bytes.now at) }
{
    match local_name(alloc, kind, bytes)? {
        Some(name) => Ok(Some((name, at))),
        None => Ok(None),
    }
}

/// The local name that the next token is, with its place, if it is one.
fn next_name(alloc: Global, rest: &Rest) -> Result<Option<(Name, u32)>, AllocError>
    ensures { IfOk result (λ name. name ≡ first_value (λ t. functions.placed_name t.kind t.bytes t.at) rest.now.left) }
{
    match rest.peek() {
        Some((kind, bytes, at)) => placed_name(alloc, kind, bytes, at),
        None => Ok(None),
    }
}

/// The name of a parameter with its place; it need not be written.
fn optional_placed<'a>(
    alloc: Global,
    rest: Rest<'a>,
) -> Result<(Option<(Name, u32)>, Rest<'a>), ParseFault>
    ensures { Gives result (value_at runs.optional_placed rest.entry) }
{
    optionals_are_read();
    let name = next_name(alloc, &rest)?;
    match name {
        Some(name) => Ok((Some(name), rest.past())),
        None => Ok((None, rest)),
    }
}

/// The rest of a parameter, behind its type.
#[tactic(auto, unfolding(ds_grammar::specs::Functions::parameter_rest, crate::specs::Runs::optional_placed))]
fn parameter_rest<'a>(
    alloc: Global,
    params: CountedParameters,
    ty: (Scalar, u32),
    rest: Rest<'a>,
) -> Result<(CountedParameters, Rest<'a>), ParseFault>
    ensures { Gives result (value_at (functions.parameter_rest params ty) rest.entry) }
{
    marks_are_read();
    let (_, rest) = ignored_run(alloc, rest)?;
    let (name, rest) = optional_placed(alloc, rest)?;
    let rest = params.named(&name, rest);
    let params = params.with(ty, name)?;
    Ok((params, rest))
}

/// A type with its place.
#[tactic(auto, unfolding(ds_grammar::specs::Functions::placed_scalar))]
fn placed_scalar<'a>(rest: Rest<'a>) -> Result<((Scalar, u32), Rest<'a>), ParseFault>
    ensures { Gives result (value_at functions.placed_scalar rest.entry) }
{
    let read = match rest.peek() {
        Some((kind, bytes, at)) => match scalar_of(kind, bytes) {
            Some(ty) => Some((ty, at)),
            None => None,
        },
        None => None,
    };
    rest.take(read)
}

/// One parameter more, of which the type or the comma before it was read.
fn parameters_more<'a>(
    alloc: Global,
    params: CountedParameters,
    ty: Option<(Scalar, u32)>,
    rest: Rest<'a>,
) -> Result<(CountedParameters, Rest<'a>), ParseFault>
    ensures { Gives result (value_at (functions.parameters_more params ty) rest.entry) }
{
    marks_are_read();
    match ty {
        Some(ty) => parameter_rest(alloc, params, ty, rest),
        None => {
            let (ty, rest) = placed_scalar(params.settled(rest))?;
            parameter_rest(alloc, params, ty, rest)
        }
    }
}

/// CountedParameters with commas between them, maybe none.
#[tactic(auto, unfolding(crate::specs::Runs::parameters_from))]
fn parameters_from<'a>(
    alloc: Global,
    rest: Rest<'a>,
) -> Result<(CountedParameters, Rest<'a>), ParseFault>
    ensures { Gives result
        (value_at (runs.parameters_from (record { params = []; counter = 0; pending = [] })) rest.entry) }
{
    runs_go_on();
    items_take_tokens();
    let mut rest = rest;
    let mut params = CountedParameters::new(alloc);
    while let Some(item) = params.next(&rest) {
        let (more, behind) = parameters_more(alloc, params, item, rest.past())?;
        params = more;
        rest = behind;
    }
    Ok((params, rest))
}

/// CountedParameters, up to the bracket that closes them.
#[tactic(auto, unfolding(ds_grammar::specs::Functions::parameters, crate::specs::Runs::parameters_from))]
pub fn defined_parameters<'a>(
    alloc: Global,
    rest: Rest<'a>,
) -> Result<(CountedParameters, Rest<'a>), ParseFault>
    ensures { Gives result (value_at functions.parameters rest.entry) }
{
    marks_are_read();
    let (params, rest) = parameters_from(alloc, rest)?;
    let rest = punct(b")", rest)?;
    let rest = params.settled(rest);
    Ok((params, rest))
}
