//! Operations on two integers.
ghost use Rattle.std.specs.Prelude.{◌≡◌, ◌⊎◌, ◌↔◌, ◌-◌, ◌*◌, ◌%◌, ◌^◌, ◌<◌, ◌≤◌, min, nat_lt, if◌then◌else◌};
ghost use Rattle.std.specs.Prelude.{pos, negsuc, neg_ℤ, int_div, int_rem, None, Ok, Err, IfOk};
ghost use Rattle.ds_ast.specs.declared.words.BinOp.TheVariants.{Shl, Lshr, Ashr};
ghost use Rattle.ds_arith.specs.Numbers.{signed, stored};
ghost use Rattle.ds_arith.specs.Operations.{number, unsigned_fault, overflows, signed_fault, fault, outcome};
ghost use Rattle.ds_arith.specs.Operations.{IsDivision, IsSignedDivision};
ghost use Rattle.ds_arith.specs.declared.fault.ArithFault.TheVariants.{DivZero, DivOverflow};

use crate::fault::ArithFault;
use crate::numbers::{lowest, power, signed, stored};
use ds_ast::BinOp;

/// How far a shift by `b` moves: by more than the width is by the width.
fn distance(bits: u32, b: u64) -> u32
    requires { bits ≤ 64 }
    ensures { result ≡ min b bits }
{
    b.min(bits as u64) as u32
}

/// The bits of `a`, moved up.
fn moved_up(bits: u32, a: u64, by: u32) -> u64
    requires { (bits ≤ 64) × (by ≤ 64) }
    ensures { result ≡ (a * 2 ^ by) % 2 ^ bits }
{
    lowest(bits, (a as u128) << by)
}

/// The bits of the quotient of the signed numbers, rounded towards zero.
fn quotient(bits: u32, a: u64, b: u64) -> u64
    requires width { (1 ≤ bits) × (bits ≤ 64) }
    requires divisor { (0 < b) × (b < 2 ^ bits) }
    ensures { result ≡ stored bits (int_div (signed bits a) (signed bits b)) }
{
    let x = signed(bits, a);
    let y = signed(bits, b);
    stored(bits, x / y)
}

/// The bits of the remainder of the signed numbers, with the sign of the first.
fn remainder(bits: u32, a: u64, b: u64) -> u64
    requires width { (1 ≤ bits) × (bits ≤ 64) }
    requires divisor { (0 < b) × (b < 2 ^ bits) }
    ensures { result ≡ stored bits (int_rem (signed bits a) (signed bits b)) }
{
    let x = signed(bits, a);
    let y = signed(bits, b);
    stored(bits, x % y)
}

/// The bits that an operation without a fault gives.
fn computed(op: BinOp, bits: u32, a: u64, b: u64) -> u64
    requires width { (1 ≤ bits) × (bits ≤ 64) }
    requires operands { (a < 2 ^ bits) × (b < 2 ^ bits) }
    requires faultless { fault op bits a b ≡ None }
    ensures { result ≡ stored bits (number op bits a b) }
{
    match op {
        BinOp::Add => lowest(bits, a as u128 + b as u128),
        BinOp::Sub => stored(bits, a as i128 - b as i128),
        BinOp::Mul => lowest(bits, a as u128 * b as u128),
        BinOp::And => lowest(bits, a as u128 & b as u128),
        BinOp::Or => lowest(bits, a as u128 | b as u128),
        BinOp::Xor => lowest(bits, a as u128 ^ b as u128),
        BinOp::Shl => moved_up(bits, a, distance(bits, b)),
        BinOp::Lshr => lowest(bits, (a as u128) >> distance(bits, b)),
        BinOp::Ashr => stored(bits, signed(bits, a) >> distance(bits, b)),
        BinOp::Udiv => lowest(bits, (a / b) as u128),
        BinOp::Sdiv => quotient(bits, a, b),
        BinOp::Urem => lowest(bits, (a % b) as u128),
        BinOp::Srem => remainder(bits, a, b),
    }
}

/// Whether the least signed number is divided by -1.
fn overflows(bits: u32, a: u64, b: u64) -> bool
    requires width { (1 ≤ bits) × (bits ≤ 64) }
    requires operands { (a < 2 ^ bits) × (b < 2 ^ bits) }
    ensures { result ≡ overflows bits a b }
{
    let least = power(bits - 1);
    let minus_one = power(bits) - 1;
    a as u128 == least && b as u128 == minus_one
}

/// The fault of an unsigned division.
fn unsigned_fault(b: u64) -> Option<ArithFault>
    ensures { result ≡ unsigned_fault b }
{
    if b == 0 {
        Some(ArithFault::DivZero)
    } else {
        None
    }
}

/// The fault of a signed division.
fn signed_fault(bits: u32, a: u64, b: u64) -> Option<ArithFault>
    requires width { (1 ≤ bits) × (bits ≤ 64) }
    requires operands { (a < 2 ^ bits) × (b < 2 ^ bits) }
    ensures { result ≡ signed_fault bits a b }
{
    if b == 0 {
        return Some(ArithFault::DivZero);
    }
    if overflows(bits, a, b) {
        return Some(ArithFault::DivOverflow);
    }
    None
}

/// The fault of an operation, where it has one.
fn fault_of(op: BinOp, bits: u32, a: u64, b: u64) -> Option<ArithFault>
    requires width { (1 ≤ bits) × (bits ≤ 64) }
    requires operands { (a < 2 ^ bits) × (b < 2 ^ bits) }
    ensures { result ≡ fault op bits a b }
{
    match op {
        BinOp::Udiv | BinOp::Urem => unsigned_fault(b),
        BinOp::Sdiv | BinOp::Srem => signed_fault(bits, a, b),
        _ => None,
    }
}

/// What an operation on two integers of `bits` bits gives, by the section of its name in the LLVM Language Reference.
///
/// The width is from 1 to 64, and both are below 2 to its power, as the result is. `add`, `sub` and `mul` wrap at the
/// width. `shl` and `lshr` by the width or more give 0, and `ashr` copies of the sign. `sdiv` rounds towards zero, and
/// `srem` has the sign of the first.
///
/// `DivZero` exactly where a division divides by 0, and `DivOverflow` exactly where `sdiv` or `srem` divides the least
/// signed number by -1.
pub fn apply(op: BinOp, bits: u32, a: u64, b: u64) -> Result<u64, ArithFault>
    requires width { (1 ≤ bits) × (bits ≤ 64) }
    requires operands { (a < 2 ^ bits) × (b < 2 ^ bits) }
    ensures exact { result ≡ outcome op bits a b }
    ensures below { IfOk result (λ n. n < 2 ^ bits) }
    ensures shifted_out { (op ≡ Shl) ⊎ (op ≡ Lshr) → bits ≤ b → result ≡ Ok 0 }
    ensures sign_fill { op ≡ Ashr → bits ≤ b → result ≡ Ok (if nat_lt a (2 ^ (bits - 1)) then 0 else 2 ^ bits - 1) }
    ensures by_zero { result ≡ Err DivZero ↔ IsDivision op × (b ≡ 0) }
    ensures overflow { result ≡ Err DivOverflow
        ↔ IsSignedDivision op × (signed bits a ≡ neg_ℤ (pos (2 ^ (bits - 1)))) × (signed bits b ≡ negsuc 0) }
{
    match fault_of(op, bits, a, b) {
        Some(found) => Err(found),
        None => Ok(computed(op, bits, a, b)),
    }
}
