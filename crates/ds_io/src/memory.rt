//! A source and a sink over memory. They give and take a few bytes a call, and fail at the calls that
//! they are told, so that a caller's behaviour in the face of failures can be tried.
ghost use Rattle.std.specs.Prelude.{Some, ◌≡◌, ◌<◌, ◌≤◌, ◌↔◌, [], min, IsTrue, IsErr, IfOk, OnErr, Contains, length};
ghost use Rattle.std.specs.Prelude.{take};
ghost use Rattle.ds_io.specs.Counts.{Rose, one_more};
ghost use Rattle.ds_io.specs.Source.{Gives, IsAtEnd};
ghost use Rattle.ds_io.specs.Sink.{Takes};
ghost use Rattle.ds_io.specs.Memory.{FailsNextRead, read_count, after_read, after_failed_read};
ghost use Rattle.ds_io.specs.Memory.{FailsNextWrite, write_count, after_write, after_failed_write};

use crate::traits::{Failed, Sink, Source};
use std::alloc::{AllocError, Global};
use std::marker::Model;

/// A source over memory. Each read gives as much as it may, and at most `most` bytes; some reads fail.
/// A read looks through the numbers of those.
#[derive(Debug, Drop)]
pub struct MemSource {
    bytes: Vec<u8>,
    given: usize,
    most: usize,
    fails: Vec<u32>,
    calls: u64,
    faults: u64,
}

impl Model for MemSource {
    ghost use Rattle.std.specs.Prelude.{◌<◌, ◌≤◌, length, drop};
    ghost use Rattle.ds_io.specs.Memory.{SourceState};

    ghost Value = { SourceState };

    ghost view = { λ s. record {
      left = drop s.given s.bytes.items;
      most = s.most;
      fails = s.fails.items;
      calls = s.calls;
      faults = s.faults;
    } };

    ghost invariant = { λ s. (s.given ≤ length s.bytes.items) × (0 < s.most) };
}

impl MemSource {
    /// A source that gives these bytes, at most `most` a read. The reads whose numbers, from 0, are among
    /// `fails` fail.
    pub fn new(bytes: Vec<u8>, most: usize, fails: Vec<u32>) -> MemSource
        requires { 0 < most }
        ensures { result ≡ record { left = bytes.items; most = most; fails = fails.items; calls = 0; faults = 0 } }
    {
        MemSource {
            bytes,
            given: 0,
            most,
            fails,
            calls: 0,
            faults: 0,
        }
    }
}

impl Source for MemSource {
    ghost left = { λ s. Some s.left };

    ghost faults = { λ s. s.faults };

    fn read(&mut self, buf: &mut [u8]) -> Result<usize, Failed>
        requires { 0 < length buf.old }
        ensures fails { IsErr result ↔ FailsNextRead self.old }
        ensures count { IfOk result (λ n. n ≡ read_count self.old (length buf.old)) }
        ensures bytes { IfOk result (λ n. take n buf.new ≡ take n self.old.left) }
        ensures after { IfOk result (λ n. self.new ≡ after_read self.old n) }
        ensures counted { OnErr result (self.new ≡ after_failed_read self.old) }

        // What each source ensures.
        ensures bound { IfOk result (λ n. n ≤ length buf.new) }
        ensures gives { IfOk result (λ n. Gives (Some self.old.left) (take n buf.new) (Some self.new.left)) }
        ensures end { IfOk result (λ n. n ≡ 0 → IsAtEnd (Some self.old.left)) }
        ensures failed { OnErr result (Rose self.old.faults self.new.faults) }
        ensures unchanged { OnErr result (Some self.new.left ≡ Some self.old.left) }
        ensures never_falls { self.old.faults ≤ self.new.faults }
    {
        let fails = is_listed(self.fails.as_slice(), self.calls);
        self.calls = self.calls.saturating_add(1);
        if fails {
            self.faults = self.faults.saturating_add(1);
            return Err(Failed);
        }
        let count = copy_front(&self.bytes[self.given..], self.most, buf);
        self.given += count;
        Ok(count)
    }
}

/// A sink over memory, with room for some bytes. Each write takes as much as it may, and at most `most` bytes;
/// some writes fail, and each where no room is left. A write looks through the numbers of those that fail.
#[derive(Debug, Drop)]
pub struct MemSink {
    bytes: Vec<u8>,
    room: usize,
    most: usize,
    fails: Vec<u32>,
    calls: u64,
    faults: u64,
}

impl Model for MemSink {
    ghost use Rattle.std.specs.Prelude.{◌<◌, ◌≤◌, vec_len, vec_capacity};
    ghost use Rattle.ds_io.specs.Memory.{SinkState};

    ghost Value = { SinkState };

    ghost view = { λ s. record {
      taken = s.bytes.items;
      room = s.room;
      most = s.most;
      fails = s.fails.items;
      calls = s.calls;
      faults = s.faults;
    } };

    ghost invariant = { λ s. (vec_len s.bytes ≤ s.room) × (s.room ≤ vec_capacity s.bytes) × (0 < s.most) };
}

impl MemSink {
    /// An empty sink with room for `room` bytes, which takes at most `most` a write. The writes whose numbers,
    /// from 0, are among `fails` fail. All its memory is taken here: `write` takes none.
    ///
    /// # Errors
    ///
    /// `AllocError` where no memory is left.
    pub fn new(
        alloc: Global,
        room: usize,
        most: usize,
        fails: Vec<u32>,
    ) -> Result<MemSink, AllocError>
        requires { 0 < most }
        ensures { IfOk result (λ sink. sink ≡ record {
          taken = [];
          room = room;
          most = most;
          fails = fails.items;
          calls = 0;
          faults = 0;
        }) }
    {
        Ok(MemSink {
            bytes: Vec::with_capacity(alloc, room)?,
            room,
            most,
            fails,
            calls: 0,
            faults: 0,
        })
    }

    /// The bytes that the sink took, in order.
    pub fn taken(&self) -> &[u8]
        ensures { result.now ≡ self.now.taken }
    {
        self.bytes.as_slice()
    }
}

impl Sink for MemSink {
    ghost taken = { λ s. Some s.taken };

    ghost faults = { λ s. s.faults };

    fn write(&mut self, piece: &[u8]) -> Result<usize, Failed>
        requires { 0 < length piece.now }
        ensures fails { IsErr result ↔ FailsNextWrite self.old }
        ensures count { IfOk result (λ n. n ≡ write_count self.old (length piece.now)) }
        ensures after { IfOk result (λ n. self.new ≡ after_write self.old (take n piece.now)) }
        ensures counted { OnErr result (self.new ≡ after_failed_write self.old) }

        // What each sink ensures.
        ensures some { IfOk result (λ n. 0 < n) }
        ensures bound { IfOk result (λ n. n ≤ length piece.now) }
        ensures takes { IfOk result (λ n. Takes (Some self.old.taken) (take n piece.now) (Some self.new.taken)) }
        ensures failed { OnErr result (Rose self.old.faults self.new.faults) }
        ensures unchanged { OnErr result (Some self.new.taken ≡ Some self.old.taken) }
        ensures never_falls { self.old.faults ≤ self.new.faults }
    {
        let room_left = self.room - self.bytes.len();
        let fails = is_listed(self.fails.as_slice(), self.calls) || room_left == 0;
        self.calls = self.calls.saturating_add(1);
        if fails {
            self.faults = self.faults.saturating_add(1);
            return Err(Failed);
        }
        let count = self.most.min(piece.len()).min(room_left);
        self.bytes.extend_from_slice(&piece[..count]).unwrap();
        Ok(count)
    }
}

/// Whether a call is among those listed.
fn is_listed(numbers: &[u32], call: u64) -> bool
    ensures { IsTrue result ↔ Contains numbers.now call }
{
    numbers.iter().any(|&number| u64::from(number) == call)
}

/// Copies the first bytes to the front of `buf`, at most `most`, and answers how many.
fn copy_front(bytes: &[u8], most: usize, buf: &mut [u8]) -> usize
    ensures count { result ≡ min (min most (length buf.old)) (length bytes.now) }
    ensures copied { take result buf.new ≡ take result bytes.now }
{
    let count = most.min(buf.len()).min(bytes.len());
    buf[..count].copy_from_slice(&bytes[..count]);
    count
}
