//! Writes what is due, and tells by a status how that went.

ghost use Rattle.ds_main.specs.Ending.{writing, Delivers};

use ds_io::{Failed, Sink, write_all};

/// The status where all that was asked for was done.
pub const DONE: u8 = 0;

/// The status where the sink failed.
pub const WRITE_FAILED: u8 = 5;

/// The status where memory ran out.
pub const OUT_OF_MEMORY: u8 = 6;

/// Writes a text, and answers the status `done` where that went well.
pub fn deliver<K: Sink>(sink: &mut K, text: &[u8], done: u8) -> u8
    ensures { Delivers text.now done (writing K.taken K.faults sink.old sink.new) result }
{
    match write_all(sink, text) {
        Ok(()) => done,
        Err(Failed) => WRITE_FAILED,
    }
}
