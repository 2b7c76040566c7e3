//! A thread that draws its log, and one that finds it.

use crate::{ListOutcome, ListWalk};
use ds_map::Limits;
use ds_plain::ListAt;
use ds_step::Event;

#[test]
fn a_thread_draws_a_log(rt: HostRuntime) {
    let limits = Limits::default_limits();
    let (place, life) = (257, 3);
    let mut walk = ListWalk::new(2, place, life, &limits);
    assert_eq!(rt; walk.row(), 26);
    assert_eq!(rt; walk.op().word, 70_290);
    assert_eq!(rt; walk.answer(0), Event::Log);
    assert_eq!(rt; walk.position(), Some(ListAt::DrawLog { place, life }));
}

#[test]
fn a_thread_has_a_log(rt: HostRuntime) {
    let limits = Limits::default_limits();
    let (place, life, log) = (257, 3, 5);
    let mut walk = ListWalk::at(2, ListAt::LoadHeader { place, life, log }, &limits);
    let header = 0x3_0200_0000;
    assert_eq!(rt; walk.answer(header), Event::Log);
    assert_eq!(rt; walk.outcome(), Some(ListOutcome::Own { log, header }));
}
