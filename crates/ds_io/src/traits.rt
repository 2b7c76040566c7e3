//! The two traits: what gives bytes, and what takes them.
ghost use Rattle.std.specs.Prelude.{◌≡◌, ℕ, ◌<◌, ◌≤◌, Option, List, length, take, IfOk, OnErr};
ghost use Rattle.ds_io.specs.Counts.{Rose};
ghost use Rattle.ds_io.specs.Source.{Gives, IsAtEnd};
ghost use Rattle.ds_io.specs.Sink.{Takes};

use std::error::Error;
use std::fmt;

/// A call to a source or a sink failed. The object that was called counted it.
#[derive(Clone, Copy, Debug, PartialEq, Eq)]
pub struct Failed;

impl fmt::Display for Failed {
    fn fmt<W: fmt::Write>(&self, f: &mut fmt::Formatter<W>) -> fmt::Result {
        write!(f, "the operation failed")
    }
}

impl Error for Failed {}

/// Gives bytes, a piece at a time.
pub trait Source {
    /// The bytes still to come, or `None` for a source that doesn't tell them, as a real file.
    ghost left: { Self → Option (List ℕ) };

    /// How often the source has failed.
    ghost faults: { Self → ℕ };

    /// Puts the next bytes into the front of `buf`, and answers how many: none only at the end.
    ///
    /// # Errors
    ///
    /// `Failed` where the source failed. It has then given nothing.
    fn read(&mut self, buf: &mut [u8]) -> Result<usize, Failed>
        requires { 0 < length buf.old }
        ensures bound { IfOk result (λ n. n ≤ length buf.new) }
        ensures gives { IfOk result (λ n. Gives (left self.old) (take n buf.new) (left self.new)) }
        ensures end { IfOk result (λ n. n ≡ 0 → IsAtEnd (left self.old)) }
        ensures failed { OnErr result (Rose (faults self.old) (faults self.new)) }
        ensures unchanged { OnErr result (left self.new ≡ left self.old) }
        ensures never_falls { faults self.old ≤ faults self.new };
}

/// Takes bytes, a piece at a time.
pub trait Sink {
    /// The bytes that the sink took, or `None` for a sink that doesn't tell them, as a real file.
    ghost taken: { Self → Option (List ℕ) };

    /// How often the sink has failed.
    ghost faults: { Self → ℕ };

    /// Takes the first bytes of `piece`, at least one, and answers how many.
    ///
    /// # Errors
    ///
    /// `Failed` where the sink failed. It has then taken nothing.
    fn write(&mut self, piece: &[u8]) -> Result<usize, Failed>
        requires { 0 < length piece.now }
        ensures some { IfOk result (λ n. 0 < n) }
        ensures bound { IfOk result (λ n. n ≤ length piece.now) }
        ensures takes { IfOk result (λ n. Takes (taken self.old) (take n piece.now) (taken self.new)) }
        ensures failed { OnErr result (Rose (faults self.old) (faults self.new)) }
        ensures unchanged { OnErr result (taken self.new ≡ taken self.old) }
        ensures never_falls { faults self.old ≤ faults self.new };
}
