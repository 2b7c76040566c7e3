//! How many cases there were.
ghost use Rattle.std.specs.Prelude.{◌≡◌, ◌<◌, ◌↔◌, IsTrue, IsFalse};

/// The status where a case failed.
const FAILED: u8 = 1;

/// How many calls were made, and how many of them gave something else than was wanted. A count that stands at its
/// greatest value stays.
#[derive(Clone, Copy, Debug, Default)]
pub struct Tally {
    /// How many were made.
    pub cases: u64,
    /// How many of these failed.
    pub failed: u64,
}

impl Tally {
    /// Counts one more case.
    pub fn count(&mut self, is_right: bool)
        ensures right { IsTrue is_right → self.new.failed ≡ self.old.failed }
        ensures wrong { IsFalse is_right → 0 < self.new.failed }
    {
        self.cases = self.cases.saturating_add(1);
        if !is_right {
            self.failed = self.failed.saturating_add(1);
        }
    }

    /// The status of the program: 0 exactly where no case failed.
    pub fn status(&self) -> u8
        ensures { result ≡ 0 ↔ self.now.failed ≡ 0 }
    {
        if self.failed == 0 { 0 } else { FAILED }
    }
}
