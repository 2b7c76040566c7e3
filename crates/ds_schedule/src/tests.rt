//! A schedule with no cues.

use crate::{Progress, Schedule};
use ds_step::{Event, OpKind, Step, WordOp};

#[test]
fn main_alone_has_each_turn(rt: HostRuntime) {
    let schedule = Schedule::seeded(rt.alloc(), 7);
    let mut progress = Progress::new(&schedule);
    assert!(rt; !progress.main_has_ended());
    assert_eq!(rt; progress.next(), 0);
    let op = WordOp {
        kind: OpKind::Store,
        word: 0,
        a: 2,
        b: 0,
    };
    progress.passed(
        0,
        &Step {
            op,
            old: 0,
            row: 12,
            event: Event::End,
        },
    );
    assert!(rt; progress.main_has_ended());
}
