//! A malloc from its first row to its last.

use crate::{AllocOutcome, AllocWalk, place_behind};
use ds_map::Limits;
use ds_plain::{AllocAt, Search};
use ds_step::Event;

#[test]
fn a_malloc_takes_the_first_block(rt: HostRuntime) {
    let limits = Limits::default_limits();
    let mut walk = AllocWalk::new(0, 8, 0, &limits);
    assert_eq!(rt; walk.row(), 20);
    assert_eq!(rt; walk.op().word, 384);
    assert_eq!(rt; walk.answer(0), Event::Log);
    assert_eq!(rt; walk.row(), 21);
    assert_eq!(rt; walk.outcome(), None);
    assert_eq!(rt; place_behind(&limits, 8, 9), 256);
}

#[test]
fn a_malloc_takes_a_free_block(rt: HostRuntime) {
    let limits = Limits::default_limits();
    let search = Search {
        class: 8,
        first: 0,
        passed: 0,
        again: false,
    };
    let at = AllocAt::SwapBlock {
        search,
        index: 2,
        life: 6,
    };
    let mut walk = AllocWalk::at(at, &limits);
    assert_eq!(rt; walk.position(), Some(at));
    assert_eq!(rt; walk.op().b, 29);
    let (place, start, life) = (2, 0x100_0300, 7);
    assert_eq!(rt; walk.answer(24), Event::Block { place, start, life });
    assert_eq!(rt; walk.outcome(), Some(AllocOutcome::Block { place, life }));
}
