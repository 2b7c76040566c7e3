//! A place among the tokens of a text, and the readers of the parts that several rows of the grammar share.
#![tactic(auto)]

mod arrays;
mod brackets;
mod literals;
mod operands;
mod parts;
mod rest;
mod runs;
mod texts;
mod types;
mod words;

pub use arrays::Arrays;
pub use literals::{fits_type, kept, name_of, range_mark, token_name, value_of};
pub use operands::{
    global, is_next_word, local, optional_atomic, same_scalar, scalar_word, target, typed_value,
    word,
};
pub use parts::{is_punct, local_name, punct, result_name, scalar, value};
pub use rest::Rest;
pub use runs::{
    balanced, ending_last, endings, ignored_from, ignored_run, is_metadata, next_ending, run_item,
    run_rest,
};
pub use texts::text_of;
pub use types::{array_front, arrays_from, base_type, closed_type, has_values, taken, type_of};
pub use words::{BIN_OP_WORDS, find, scalar_of};
