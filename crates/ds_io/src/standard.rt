//! The standard input and output. What they give and take is not known to any contract: only the count of
//! failures is.
ghost use Rattle.std.specs.Prelude.{◌≡◌, ◌<◌, ◌≤◌, None, IfOk, OnOk, OnErr, length, take};
ghost use Rattle.ds_io.specs.Counts.{Rose, one_more};
ghost use Rattle.ds_io.specs.Source.{Gives, IsAtEnd};
ghost use Rattle.ds_io.specs.Sink.{Takes};

use crate::traits::{Failed, Sink, Source};
use std::io;
use std::io::{ErrorKind, Input, Print, Read};
use std::marker::Model;

/// How often a call is tried again after a signal cut it short.
const RETRIES: usize = 64;

/// The standard input. A contract sees the count of its failures.
#[derive(Drop)]
pub struct StdSource<I: Input> {
    reader: I::Reader,
    faults: u64,
}

impl<I: Input> Model for StdSource<I> {
    ghost use Rattle.std.specs.Prelude.{ℕ};

    ghost Value = { ℕ };

    ghost view = { λ s. s.faults };
}

impl<I: Input> StdSource<I> {
    /// The standard input of this runtime, with no failure so far.
    pub fn new(rt: &I) -> StdSource<I>
        ensures { result ≡ 0 }
    {
        StdSource {
            reader: rt.reader(),
            faults: 0,
        }
    }
}

impl<I: Input> Source for StdSource<I> {
    ghost left = { λ _. None };

    ghost faults = { λ s. s };

    fn read(&mut self, buf: &mut [u8]) -> Result<usize, Failed>
        requires { 0 < length buf.old }
        ensures kept { OnOk result (self.new ≡ self.old) }
        ensures counted { OnErr result (self.new ≡ one_more self.old) }

        // What each source ensures.
        ensures bound { IfOk result (λ n. n ≤ length buf.new) }
        ensures failed { OnErr result (Rose self.old self.new) }
        ensures never_falls { self.old ≤ self.new }
    {
        match read_some(&mut self.reader, buf) {
            Ok(count) => Ok(count),
            Err(_) => {
                self.faults = self.faults.saturating_add(1);
                Err(Failed)
            }
        }
    }
}

/// The standard output, with no buffer: what was written is with the system. A contract sees the count of its
/// failures.
#[derive(Drop)]
pub struct StdSink<'a, P: Print> {
    printer: &'a P,
    faults: u64,
}

impl<'a, P: Print> Model for StdSink<'a, P> {
    ghost use Rattle.std.specs.Prelude.{ℕ};

    ghost Value = { ℕ };

    ghost view = { λ s. s.faults };
}

impl<'a, P: Print> StdSink<'a, P> {
    /// The standard output of this runtime, with no failure so far.
    pub fn new(rt: &'a P) -> StdSink<'a, P>
        ensures { result ≡ 0 }
    {
        StdSink {
            printer: rt,
            faults: 0,
        }
    }
}

impl<'a, P: Print> Sink for StdSink<'a, P> {
    ghost taken = { λ _. None };

    ghost faults = { λ s. s };

    fn write(&mut self, piece: &[u8]) -> Result<usize, Failed>
        requires { 0 < length piece.now }
        ensures kept { OnOk result (self.new ≡ self.old) }
        ensures counted { OnErr result (self.new ≡ one_more self.old) }

        // What each sink ensures.
        ensures some { IfOk result (λ n. 0 < n) }
        ensures bound { IfOk result (λ n. n ≤ length piece.now) }
        ensures failed { OnErr result (Rose self.old self.new) }
        ensures never_falls { self.old ≤ self.new }
    {
        match write_some(self.printer, piece) {
            Ok(count) if count > 0 => Ok(count),
            _ => {
                self.faults = self.faults.saturating_add(1);
                Err(Failed)
            }
        }
    }
}

/// Reads once, and again where a signal cut that short.
fn read_some<R: Read>(reader: &mut R, buf: &mut [u8]) -> io::Result<usize>
    ensures { IfOk result (λ n. n ≤ length buf.new) }
{
    for _ in 0..RETRIES {
        match reader.read(buf) {
            Ok(count) => return Ok(count),
            Err(error) => {
                if error.kind() != ErrorKind::Interrupted {
                    return Err(error);
                }
            }
        }
    }
    reader.read(buf)
}

/// Writes once, and again where a signal cut that short.
fn write_some<P: Print>(printer: &P, piece: &[u8]) -> io::Result<usize>
    ensures { IfOk result (λ n. n ≤ length piece.now) }
{
    for _ in 0..RETRIES {
        match printer.write_some(piece) {
            Ok(count) => return Ok(count),
            Err(error) => {
                if error.kind() != ErrorKind::Interrupted {
                    return Err(error);
                }
            }
        }
    }
    printer.write_some(piece)
}
