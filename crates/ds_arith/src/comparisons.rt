//! Comparisons of two integers.
ghost use Rattle.std.specs.Prelude.{◌≡◌, ◌^◌, ◌<◌, ◌≤◌};
ghost use Rattle.ds_arith.specs.Comparisons.{holds};

use crate::numbers::signed;
use ds_ast::Cond;

/// Whether two integers of `bits` bits compare as is asked: `icmp` of the LLVM Language Reference.
///
/// The width is from 1 to 64, and both are below 2 to its power. `eq` and `ne` compare the bits, the conditions of
/// unsigned numbers the numbers that they are, and those of signed numbers the ones that they stand for in two's
/// complement. Pointers are compared as 64 bits.
pub fn compare(cond: Cond, bits: u32, a: u64, b: u64) -> bool
    requires width { (1 ≤ bits) × (bits ≤ 64) }
    requires operands { (a < 2 ^ bits) × (b < 2 ^ bits) }
    ensures { result ≡ holds cond bits a b }
{
    let x = signed(bits, a);
    let y = signed(bits, b);
    match cond {
        Cond::Eq => a == b,
        Cond::Ne => a != b,
        Cond::Ugt => a > b,
        Cond::Uge => a >= b,
        Cond::Ult => a < b,
        Cond::Ule => a <= b,
        Cond::Sgt => x > y,
        Cond::Sge => x >= y,
        Cond::Slt => x < y,
        Cond::Sle => x <= y,
    }
}
