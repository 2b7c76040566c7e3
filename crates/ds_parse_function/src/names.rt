//! Numbers of names: each function has one counter, from 0.
ghost use Rattle.std.specs.Prelude.{◌≡◌};
ghost use Rattle.ds_grammar.specs.Functions as functions;

use ds_ast::Name;
use ds_grammar::Mark;
use ds_parse_parts::range_mark;

/// The mark of a number that a name takes without being written: it is below 2^32.
pub fn taken_mark(at: u32, counter: u64) -> Mark
    ensures { result ≡ functions.taken_mark at counter }
{
    range_mark(at, counter < 1 << 32)
}

/// The mark of a name that is written: a number is at least the counter.
pub fn written_mark(at: u32, name: &Name, counter: u64) -> Mark
    ensures { result ≡ functions.written_mark at name.now counter }
{
    match name {
        Name::Number(number) => range_mark(at, counter <= u64::from(*number)),
        Name::Text(_) => range_mark(at, true),
    }
}

/// The counter behind this number, which stands still at the end of its type.
pub fn risen(number: u64) -> u64
    ensures { result ≡ functions.risen number }
{
    number.saturating_add(1)
}

/// The counter behind a name that is written.
pub fn counted(name: &Name, counter: u64) -> u64
    ensures { result ≡ functions.counted name.now counter }
{
    match name {
        Name::Number(number) => risen(u64::from(*number)),
        Name::Text(_) => counter,
    }
}

/// The name that a number is.
pub fn numbered(number: u64) -> Name
    ensures { result ≡ functions.numbered number }
{
    Name::Number((number % (1 << 32)) as u32)
}
