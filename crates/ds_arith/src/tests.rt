//! Each call at the ends of the ranges, with results found by hand.
use super::*;
use ds_ast::{BinOp, Cond};

#[test]
fn operations(rt: HostRuntime) {
    assert_eq!(rt; apply(BinOp::Add, 8, 200, 100), Ok(44));
    assert_eq!(rt; apply(BinOp::Sub, 64, 0, 1), Ok(0xffff_ffff_ffff_ffff));
    assert_eq!(rt; apply(BinOp::Mul, 32, 0xffff_ffff, 0xffff_ffff), Ok(1));
    assert_eq!(rt; apply(BinOp::And, 16, 0xf0f0, 0xff00), Ok(0xf000));
    assert_eq!(rt; apply(BinOp::Or, 1, 1, 0), Ok(1));
    assert_eq!(rt; apply(BinOp::Xor, 1, 1, 1), Ok(0));
    assert_eq!(rt; apply(BinOp::Shl, 16, 3, 15), Ok(0x8000));
    assert_eq!(rt; apply(BinOp::Lshr, 64, 0x8000_0000_0000_0000, 64), Ok(0));
    assert_eq!(rt; apply(BinOp::Ashr, 8, 0x80, 200), Ok(0xff));
    assert_eq!(rt; apply(BinOp::Udiv, 32, 0xffff_ffff, 2), Ok(0x7fff_ffff));
    assert_eq!(rt; apply(BinOp::Sdiv, 8, 0xf9, 2), Ok(0xfd));
    assert_eq!(rt; apply(BinOp::Sdiv, 8, 0x80, 1), Ok(0x80));
    assert_eq!(rt; apply(BinOp::Srem, 32, 0xffff_fff9, 2), Ok(0xffff_ffff));
    assert_eq!(rt; apply(BinOp::Srem, 16, 7, 0xfffe), Ok(1));
}

#[test]
fn faults(rt: HostRuntime) {
    let least = 0x8000_0000_0000_0000;
    assert_eq!(rt; apply(BinOp::Urem, 64, least, 0), Err(ArithFault::DivZero));
    assert_eq!(rt;
        apply(BinOp::Sdiv, 64, least, 0xffff_ffff_ffff_ffff),
        Err(ArithFault::DivOverflow)
    );
}

#[test]
fn comparisons(rt: HostRuntime) {
    assert!(rt; compare(Cond::Slt, 8, 0x80, 0x7f));
    assert!(rt; compare(Cond::Ugt, 8, 0x80, 0x7f));
    assert!(rt; compare(Cond::Sge, 1, 0, 1));
    assert!(rt; !compare(Cond::Sle, 64, 0, 0xffff_ffff_ffff_ffff));
}

#[test]
fn extensions(rt: HostRuntime) {
    assert_eq!(rt; sign_extend(1, 32, 1), 0xffff_ffff);
    assert_eq!(rt; sign_extend(16, 64, 0x7fff), 0x7fff);
}
