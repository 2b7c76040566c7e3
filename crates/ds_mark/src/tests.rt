//! A free at its first row and at its last.

use crate::{FreeOutcome, FreeWalk};
use ds_map::Limits;
use ds_plain::FreeAt;
use ds_step::Event;

#[test]
fn a_free_finds_its_block(rt: HostRuntime) {
    let limits = Limits::default_limits();
    let mut walk = FreeWalk::new(0, 0x100_1010, &limits);
    assert_eq!(rt; walk.row(), 61);
    assert_eq!(rt; walk.op().word, 385);
    assert_eq!(rt; walk.answer(1), Event::Log);
    let (address, place) = (0x100_1010, 257);
    assert_eq!(rt; walk.position(), Some(FreeAt::LoadBlock { address, place }));
}

#[test]
fn a_free_gives_its_block_back(rt: HostRuntime) {
    let limits = Limits::default_limits();
    let (place, life) = (257, 3);
    let mut walk = FreeWalk::at(FreeAt::StoreFree { place, life }, &limits);
    assert_eq!(rt; walk.op().a, 12);
    assert_eq!(rt; walk.answer(0), Event::EndFree { place });
    assert_eq!(rt; walk.outcome(), Some(FreeOutcome::Done));
}
