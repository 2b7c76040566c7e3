//! Addresses, and the parts of words at them.

ghost use Rattle.std.specs.Prelude.{◌≡◌, ◌+◌, ◌*◌, ◌%◌, ◌^◌, ◌<◌, ◌≤◌, IfOk, IfSome};
ghost use Rattle.ds_map.specs.Blocks.{is_marked};
ghost use Rattle.ds_map.specs.Regions.{heap, lies_in};
ghost use Rattle.ds_shape.specs.Sizes.{scalar_size};
ghost use Rattle.ds_plain.specs.Parts.{part};
ghost use Rattle.ds_meaning.specs.Memory.{access_at};
ghost use Rattle.ds_code.specs.CodeMeaning.{judged};

use ds_ast::Scalar;
use ds_map::{Limits, location};
use ds_plain::{Access, TrapKind};

/// How many bytes a value of the type has.
fn size_of(ty: Scalar) -> u8
    ensures value { result ≡ scalar_size ty }
    ensures least { 1 ≤ result }
    ensures most { result ≤ 8 }
{
    match ty {
        Scalar::I1 => 1,
        Scalar::I8 => 1,
        Scalar::I16 => 2,
        Scalar::I32 => 4,
        Scalar::I64 => 8,
        Scalar::Ptr => 8,
    }
}

/// Whether a value has bit 63 set.
pub(crate) fn is_marked(value: u64) -> bool
    ensures { result ≡ is_marked value }
{
    value >= 1 << 63
}

/// Whether an address lies in the heap.
pub(crate) fn is_in_heap(limits: Limits, address: u64) -> bool
    ensures { result ≡ lies_in (heap limits) address }
{
    let end = 0x100_0000 + 8 * (512 * u64::from(limits.pages()));
    address >= 0x100_0000 && address < end
}

/// The part of a word that a value of the type at an address is. `None` where no word holds it, or where the address
/// is no multiple of its size.
fn access_at(limits: Limits, ty: Scalar, address: u64) -> Option<Access>
    ensures exact { result ≡ access_at limits ty address }
    ensures part { IfSome result (λ access. (access.shift < 64) × (access.bits ≤ 64)) }
{
    let size = size_of(ty);
    if address % u64::from(size) != 0 {
        return None;
    }
    match location(&limits, address) {
        None => None,
        Some(loc) => Some(Access {
            loc,
            shift: (8 * (address % 8)) as u8,
            bits: 8 * size,
        }),
    }
}

/// The part of a word that a value of the type at an address is, or the trap of the address.
pub(crate) fn judged(limits: Limits, ty: Scalar, address: u64) -> Result<Access, TrapKind>
    ensures exact { result ≡ judged limits ty address }
    ensures part { IfOk result (λ access. (access.shift < 64) × (access.bits ≤ 64)) }
{
    if is_marked(address) {
        return Err(TrapKind::UseAfterFree { address });
    }
    match access_at(limits, ty, address) {
        None => Err(TrapKind::BadAddress { address }),
        Some(access) => Ok(access),
    }
}

/// The bits of a word that an access reads.
pub(crate) fn part(access: Access, word: u64) -> u64
    requires { (access.shift < 64) × (access.bits ≤ 64) }
    ensures { result ≡ part access word }
{
    if access.shift == 0 && access.bits == 64 {
        return word;
    }
    let moved = word >> access.shift;
    if access.bits < 64 {
        moved % (1 << access.bits)
    } else {
        moved
    }
}
