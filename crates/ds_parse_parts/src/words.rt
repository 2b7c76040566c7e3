//! Words and what they stand for.
ghost use Rattle.std.specs.Prelude.{◌≡◌, map};
ghost use Rattle.std.specs.List.{list_all};
ghost use Rattle.ds_lex.specs.Bytes.{is_digit};
ghost use Rattle.ds_grammar.specs.Words as spec;
ghost use Rattle.ds_grammar.specs.Tokens as tokens;

use ds_ast::{BinOp, Scalar};
use ds_lex::TokenKind;

/// The words that are refused, but for integer types.
const REFUSED_WORDS: [&[u8]; 51] = [
    b"byval",
    b"inalloca",
    b"preallocated",
    b"half",
    b"bfloat",
    b"float",
    b"double",
    b"fp128",
    b"x86_fp80",
    b"metadata",
    b"token",
    b"invoke",
    b"resume",
    b"landingpad",
    b"callbr",
    b"indirectbr",
    b"asm",
    b"addrspace",
    b"thread_local",
    b"extractelement",
    b"insertelement",
    b"shufflevector",
    b"insertvalue",
    b"fadd",
    b"fsub",
    b"fmul",
    b"fdiv",
    b"frem",
    b"fneg",
    b"fcmp",
    b"fptrunc",
    b"fpext",
    b"fptoui",
    b"fptosi",
    b"uitofp",
    b"sitofp",
    b"va_arg",
    b"freeze",
    b"bitcast",
    b"addrspacecast",
    b"blockaddress",
    b"nand",
    b"max",
    b"min",
    b"opaque",
    b"comdat",
    b"section",
    b"personality",
    b"syncscope",
    b"poison",
    b"...",
];

/// The words that the forms of a module spell.
const TEXT_WORDS: [&[u8]; 81] = [
    b"source_filename",
    b"target",
    b"datalayout",
    b"triple",
    b"type",
    b"global",
    b"constant",
    b"declare",
    b"define",
    b"attributes",
    b"distinct",
    b"void",
    b"x",
    b"i1",
    b"i8",
    b"i16",
    b"i32",
    b"i64",
    b"ptr",
    b"true",
    b"false",
    b"null",
    b"undef",
    b"label",
    b"zeroinitializer",
    b"align",
    b"atomic",
    b"to",
    b"unordered",
    b"monotonic",
    b"acquire",
    b"release",
    b"acq_rel",
    b"seq_cst",
    b"icmp",
    b"select",
    b"alloca",
    b"load",
    b"store",
    b"getelementptr",
    b"call",
    b"phi",
    b"atomicrmw",
    b"cmpxchg",
    b"extractvalue",
    b"fence",
    b"ret",
    b"br",
    b"switch",
    b"unreachable",
    b"add",
    b"sub",
    b"mul",
    b"and",
    b"or",
    b"xor",
    b"shl",
    b"lshr",
    b"ashr",
    b"udiv",
    b"sdiv",
    b"urem",
    b"srem",
    b"zext",
    b"sext",
    b"trunc",
    b"ptrtoint",
    b"inttoptr",
    b"eq",
    b"ne",
    b"ugt",
    b"uge",
    b"ult",
    b"ule",
    b"sgt",
    b"sge",
    b"slt",
    b"sle",
    b"xchg",
    b"umax",
    b"umin",
];

/// The integer types that are read.
const INTEGER_WORDS: [&[u8]; 5] = [b"i1", b"i8", b"i16", b"i32", b"i64"];

/// The types that one register holds.
const SCALAR_WORDS: [(&[u8], Scalar); 6] = [
    (b"i1", Scalar::I1),
    (b"i8", Scalar::I8),
    (b"i16", Scalar::I16),
    (b"i32", Scalar::I32),
    (b"i64", Scalar::I64),
    (b"ptr", Scalar::Ptr),
];

/// The operations on two integers.
pub const BIN_OP_WORDS: [(&[u8], BinOp); 13] = [
    (b"add", BinOp::Add),
    (b"sub", BinOp::Sub),
    (b"mul", BinOp::Mul),
    (b"and", BinOp::And),
    (b"or", BinOp::Or),
    (b"xor", BinOp::Xor),
    (b"shl", BinOp::Shl),
    (b"lshr", BinOp::Lshr),
    (b"ashr", BinOp::Ashr),
    (b"udiv", BinOp::Udiv),
    (b"sdiv", BinOp::Sdiv),
    (b"urem", BinOp::Urem),
    (b"srem", BinOp::Srem),
];

/// Whether a token of this kind is a word.
fn is_word_kind(kind: TokenKind) -> bool
    ensures { result ≡ spec.is_word_kind kind }
{
    matches!(kind, TokenKind::Word)
}

/// Whether bytes are one of these words.
fn is_one_of(words: &[&[u8]], bytes: &[u8]) -> bool
    ensures { result ≡ spec.is_one_of (map (λ w. w.now) words.now) bytes.now }
{
    for word in words {
        if bytes == *word {
            return true;
        }
    }
    false
}

/// What a table has for these bytes.
pub fn find<A: Copy>(table: &[(&[u8], A)], bytes: &[u8]) -> Option<A>
    ensures { result ≡ tokens.lookup (map (λ row. (row.0.now, row.1)) table.now) bytes.now }
{
    for (word, value) in table {
        if bytes == *word {
            return Some(*value);
        }
    }
    None
}

/// Whether all bytes are digits.
pub fn are_digits(bytes: &[u8]) -> bool
    ensures { result ≡ list_all is_digit bytes.now }
{
    for byte in bytes {
        if !byte.is_ascii_digit() {
            return false;
        }
    }
    true
}

/// Whether bytes are `i` and one or more digits.
fn is_integer_word(bytes: &[u8]) -> bool
    ensures { result ≡ spec.is_integer_word bytes.now }
{
    match bytes {
        [first, second, ..] => *first == b'i' && are_digits(&bytes[1..]),
        _ => false,
    }
}

/// Whether bytes are one of the integer types that are read.
#[tactic(auto, unfolding(ds_grammar::specs::Words::integer_words))]
fn is_known_integer(bytes: &[u8]) -> bool
    ensures { result ≡ spec.is_one_of spec.integer_words bytes.now }
{
    is_one_of(&INTEGER_WORDS, bytes)
}

/// Whether bytes are one of the words that are refused.
#[tactic(auto, unfolding(ds_grammar::specs::Words::refused_words))]
fn is_listed_refused(bytes: &[u8]) -> bool
    ensures { result ≡ spec.is_one_of spec.refused_words bytes.now }
{
    is_one_of(&REFUSED_WORDS, bytes)
}

/// Whether bytes are one of the words that the forms spell.
#[tactic(auto, unfolding(ds_grammar::specs::Tokens::text_words))]
fn is_text_word(bytes: &[u8]) -> bool
    ensures { result ≡ spec.is_one_of tokens.text_words bytes.now }
{
    is_one_of(&TEXT_WORDS, bytes)
}

/// Whether bytes are a word that is refused.
#[tactic(auto, unfolding(ds_grammar::specs::Words::is_refused_word))]
fn is_refused_word(bytes: &[u8]) -> bool
    ensures { result ≡ spec.is_refused_word bytes.now }
{
    is_listed_refused(bytes) || (is_integer_word(bytes) && !is_known_integer(bytes))
}

/// Whether a token is a word that is refused.
pub fn is_refused(kind: TokenKind, bytes: &[u8]) -> bool
    ensures { result ≡ spec.is_refused_token kind bytes.now }
{
    is_word_kind(kind) && is_refused_word(bytes)
}

/// Whether bytes are a word that means nothing here.
#[tactic(auto, unfolding(ds_grammar::specs::Tokens::is_ignored_word))]
pub fn is_ignored_word(bytes: &[u8]) -> bool
    ensures { result ≡ tokens.is_ignored_word bytes.now }
{
    !is_text_word(bytes) && !is_refused_word(bytes)
}

/// The type of a register that a token is.
pub fn scalar_of(kind: TokenKind, bytes: &[u8]) -> Option<Scalar>
    ensures { result ≡ tokens.word_in tokens.scalar_words kind bytes.now }
{
    if is_word_kind(kind) {
        find(&SCALAR_WORDS, bytes)
    } else {
        None
    }
}
