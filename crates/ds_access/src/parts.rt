//! Parts of words: what an access reads of a word, and the word with another value there.

ghost use Rattle.std.specs.Prelude.{◌≡◌, ◌+◌, ◌-◌, ◌*◌, ◌%◌, ◌^◌, ◌<◌, ◌≤◌};
ghost use Rattle.ds_plain.specs.Parts.{is_whole, bits_from, part, with_bits, with_part, combined};

use ds_ast::RmwOp;
use ds_plain::Access;

/// Whether an access is of a whole word.
fn is_whole(access: Access) -> bool
    ensures { result ≡ is_whole access }
{
    access.shift == 0 && access.bits == 64
}

// BITS OF A WORD

/// The lowest `bits` bits of a word.
fn lowest(bits: u8, word: u64) -> u64
    requires { bits ≤ 64 }
    ensures value { result ≡ word % 2 ^ bits }
    ensures below { result < 2 ^ bits }
{
    if bits == 64 {
        return word;
    }
    word % (1 << bits)
}

/// So many bits of a word, from bit `shift` on.
fn bits_from(shift: u8, bits: u8, word: u64) -> u64
    requires { shift + bits ≤ 64 }
    ensures { result ≡ bits_from shift bits word }
{
    lowest(bits, (u128::from(word) >> shift) as u64)
}

/// A value of so many bits, moved up to bit `shift`.
fn moved_up(shift: u8, bits: u8, value: u64) -> u64
    requires inside { shift + bits ≤ 64 }
    requires small { value < 2 ^ bits }
    ensures { result ≡ value * 2 ^ shift }
{
    (u128::from(value) << shift) as u64
}

/// The word with a value in place of so many bits, from bit `shift` on.
fn with_bits(shift: u8, bits: u8, value: u64, word: u64) -> u64
    requires { shift + bits ≤ 64 }
    ensures { result ≡ with_bits shift bits value word }
{
    let part = bits_from(shift, bits, word);
    let put = lowest(bits, value);
    word - moved_up(shift, bits, part) + moved_up(shift, bits, put)
}

// PARTS

/// The bits of a word that an access reads.
pub(crate) fn part(access: Access, word: u64) -> u64
    requires { access.shift + access.bits ≤ 64 }
    ensures { result ≡ part access word }
{
    if is_whole(access) {
        return word;
    }
    bits_from(access.shift, access.bits, word)
}

/// The word with a value in place of the part that an access writes.
pub(crate) fn with_part(access: Access, value: u64, word: u64) -> u64
    requires { access.shift + access.bits ≤ 64 }
    ensures { result ≡ with_part access value word }
{
    if is_whole(access) {
        return value;
    }
    with_bits(access.shift, access.bits, value, word)
}

// OPERATIONS

/// The sum of two values, modulo 2 to the power of `bits`.
fn sum(bits: u8, old: u64, value: u64) -> u64
    requires { bits ≤ 64 }
    ensures { result ≡ (old + value) % 2 ^ bits }
{
    lowest(bits, old.wrapping_add(value))
}

/// The difference of two values, modulo 2 to the power of `bits`. Where more is subtracted than that, nothing is.
fn difference(bits: u8, old: u64, value: u64) -> u64
    requires { bits ≤ 64 }
    ensures { result ≡ (old + (2 ^ bits - value)) % 2 ^ bits }
{
    if bits == 64 {
        return old.wrapping_sub(value);
    }
    sum(bits, old, (1u64 << bits).saturating_sub(value))
}

/// What an operation with a value of so many bits writes where another stands.
pub(crate) fn combined(op: RmwOp, bits: u8, old: u64, value: u64) -> u64
    requires { bits ≤ 64 }
    ensures { result ≡ combined op bits old value }
{
    match op {
        RmwOp::Xchg => value,
        RmwOp::Add => sum(bits, old, value),
        RmwOp::Sub => difference(bits, old, value),
        RmwOp::And => old & value,
        RmwOp::Or => old | value,
        RmwOp::Xor => old ^ value,
        RmwOp::Umax => old.max(value),
        RmwOp::Umin => old.min(value),
    }
}
