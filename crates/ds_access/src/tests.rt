//! An access to a whole word, and one to a part of a word.

use crate::AccessWalk;
use ds_ast::RmwOp;
use ds_map::Limits;
use ds_plain::{Access, AccessAt, Change};
use ds_step::Event;

#[test]
fn a_whole_word_is_combined_in_one_step(rt: HostRuntime) {
    let limits = Limits::default_limits();
    let (loc, op, value) = (3, RmwOp::Sub, 1);
    let mut walk = AccessWalk::at(AccessAt::CombineWord { loc, op, value }, &limits);
    assert_eq!(rt; walk.row(), 16);
    assert_eq!(rt; walk.op().word, 3_211_907);
    let value = 0xffff_ffff_ffff_ffff;
    assert_eq!(rt; walk.answer(0), Event::Exchange { loc, value });
    assert_eq!(rt; walk.outcome(), Some(0));
}

#[test]
fn a_part_is_changed_beside_its_neighbours(rt: HostRuntime) {
    let limits = Limits::default_limits();
    let (loc, shift, bits) = (3, 8, 8);
    let access = Access { loc, shift, bits };
    let (change, seen) = (Change::Put(0xff), 0x11_2233);
    let mut walk = AccessWalk::at(AccessAt::LoadPart { access, change }, &limits);
    assert_eq!(rt; walk.answer(seen), Event::Log);
    let mut walk = AccessWalk::at(
        AccessAt::SwapPart {
            access,
            change,
            seen,
        },
        &limits,
    );
    assert_eq!(rt; walk.op().b, 0x11_ff33);
    let value = 0x11_ff33;
    assert_eq!(rt; walk.answer(seen), Event::Exchange { loc, value });
    assert_eq!(rt; walk.outcome(), Some(0));
}
