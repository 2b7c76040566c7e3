//! Two's complement: the bits of an integer, and the whole numbers that they stand for.
ghost use Rattle.std.specs.Prelude.{◌≡◌, ◌%◌, ◌^◌, ◌<◌, ◌≤◌, unsigned_abs};
ghost use Rattle.ds_arith.specs.Numbers.{signed, stored};

/// 2 to the power of `exponent`, which is at most 64.
pub(crate) fn power(exponent: u32) -> u128
    requires { exponent ≤ 64 }
    ensures value { result ≡ 2 ^ exponent }
    ensures least { 1 ≤ result }
    ensures most { result ≤ 2 ^ 64 }
{
    1 << exponent
}

/// The lowest `bits` bits of a number that is not negative.
pub(crate) fn lowest(bits: u32, whole: u128) -> u64
    requires { bits ≤ 64 }
    ensures { result ≡ whole % 2 ^ bits }
{
    (whole % power(bits)) as u64
}

/// The `bits` bits in which a whole number is kept.
pub(crate) fn stored(bits: u32, whole: i128) -> u64
    requires { bits ≤ 64 }
    ensures { result ≡ stored bits whole }
{
    whole.rem_euclid(power(bits) as i128) as u64
}

/// The signed number that `bits` bits stand for.
pub(crate) fn signed(bits: u32, n: u64) -> i128
    requires { (1 ≤ bits) × (bits ≤ 64) }
    ensures value { result ≡ signed bits n }
    ensures small { unsigned_abs result ≤ 2 ^ 64 }
{
    let half = power(bits - 1);
    let all = power(bits);
    if (n as u128) < half {
        n as i128
    } else {
        n as i128 - all as i128
    }
}

/// The signed number that `from` bits stand for, in `to` bits: `sext` of the LLVM Language Reference.
///
/// The widths are from 1 to 64, `to` is at least `from`, and `a` is below 2 to the power `from`. The result stands for
/// the same signed number.
pub fn sign_extend(from: u32, to: u32, a: u64) -> u64
    requires widths { (1 ≤ from) × (from ≤ to) × (to ≤ 64) }
    requires operand { a < 2 ^ from }
    ensures exact { result ≡ stored to (signed from a) }
    ensures same { signed to result ≡ signed from a }
    ensures below { result < 2 ^ to }
{
    stored(to, signed(from, a))
}
