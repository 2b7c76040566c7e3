//! A note at its first row and at its last.

use crate::{NoteOutcome, NoteWalk};
use ds_map::Limits;
use ds_plain::NoteAt;
use ds_step::Event;

#[test]
fn a_note_finds_its_block(rt: HostRuntime) {
    let limits = Limits::default_limits();
    let loc = 4096;
    let mut walk = NoteWalk::new(2, loc, 0x100_101c, &limits);
    assert_eq!(rt; walk.row(), 24);
    assert_eq!(rt; walk.op().word, 385);
    assert_eq!(rt; walk.answer(1), Event::Log);
    let (place, start) = (257, 0x100_1010);
    assert_eq!(rt;
        walk.position(),
        Some(NoteAt::LoadBlock { loc, place, start })
    );
}

#[test]
fn a_note_counts_its_entry(rt: HostRuntime) {
    let limits = Limits::default_limits();
    let (loc, place, life, log, used) = (4096, 257, 3, 5, 1);
    let at = NoteAt::CountEntry {
        loc,
        place,
        life,
        log,
        used,
    };
    let mut walk = NoteWalk::at(2, at, &limits);
    assert_eq!(rt; walk.op().a, 0x3_0200_0000);
    assert_eq!(rt; walk.answer(0), Event::Noted { place, life, loc });
    assert_eq!(rt; walk.outcome(), Some(NoteOutcome::Noted));
}
