//! How large a run may be.

ghost use Rattle.std.specs.Prelude.{◌≡◌, ◌↔◌, IsSome, IfSome};
ghost use Rattle.ds_map.specs.Bounds.{bounds, IsInRange, default_limits};
ghost use Rattle.ds_map.specs.Words.{words};

use crate::places::{first_program_word, program_words};
use std::marker::Model;

/// The most pages that the heap may have.
const MOST_PAGES: u32 = 4096;

/// The most units that a thread may spend.
const MOST_FUEL: u32 = 2_000_000;

/// The most logs that a run may have.
const MOST_LOGS: u32 = 1_048_576;

/// The most words that the hash area may have.
const MOST_HASH: u32 = 16_777_216;

/// How large a run may be: the pages of its heap (1 to 4,096), the units that each thread may spend (1 to
/// 2,000,000), its logs (0 to 1,048,576) and the words of their hash area (0 to 16,777,216).
#[derive(Clone, Copy, Debug, PartialEq, Eq)]
pub struct Limits {
    pages: u32,
    fuel: u32,
    logs: u32,
    hash: u32,
}

impl Model for Limits {
    ghost use Rattle.ds_map.specs.Bounds.{Bounds, bounds, IsInRange};

    ghost Value = { Bounds };

    ghost view = { λ l. bounds l.pages l.fuel l.logs l.hash };

    ghost invariant = { λ l. IsInRange (bounds l.pages l.fuel l.logs l.hash) };

    ghost inverse = { λ b. record { pages = b.pages; fuel = b.fuel; logs = b.logs; hash = b.hash } };
}

impl Limits {
    /// The limits with these numbers. `None` exactly where one of them is out of its range.
    pub fn new(pages: u32, fuel: u32, logs: u32, hash: u32) -> Option<Limits>
        ensures in_range { IsSome result ↔ IsInRange (bounds pages fuel logs hash) }
        ensures value { IfSome result (λ limits. limits ≡ bounds pages fuel logs hash) }
    {
        if pages < 1
            || pages > MOST_PAGES
            || fuel < 1
            || fuel > MOST_FUEL
            || logs > MOST_LOGS
            || hash > MOST_HASH
        {
            return None;
        }
        Some(Limits {
            pages,
            fuel,
            logs,
            hash,
        })
    }

    /// The limits of a run that names none: 256 pages, 1,000,000 units a thread, 65,536 logs and 1,048,576
    /// words of the hash area.
    pub fn default_limits() -> Limits
        ensures { result ≡ default_limits }
    {
        Limits {
            pages: 256,
            fuel: 1_000_000,
            logs: 65_536,
            hash: 1_048_576,
        }
    }

    /// The pages of the heap, of 4,096 bytes each.
    pub fn pages(&self) -> u32
        ensures pages { result ≡ self.now.pages }
        ensures in_range { IsInRange self.now }
    {
        self.pages
    }

    /// The units that each thread may spend.
    pub fn fuel(&self) -> u32
        ensures fuel { result ≡ self.now.fuel }
        ensures in_range { IsInRange self.now }
    {
        self.fuel
    }

    /// The number of logs.
    pub fn logs(&self) -> u32
        ensures logs { result ≡ self.now.logs }
        ensures in_range { IsInRange self.now }
    {
        self.logs
    }

    /// The number of words of the hash area.
    pub fn hash(&self) -> u32
        ensures hash { result ≡ self.now.hash }
        ensures in_range { IsInRange self.now }
    {
        self.hash
    }

    /// The number of words of the shared table.
    pub fn words(&self) -> u32
        ensures words { result ≡ words self.now }
        ensures in_range { IsInRange self.now }
    {
        first_program_word(self) + program_words(self)
    }
}

#[cfg(test)]
mod tests {
    use super::*;

    #[test]
    fn limits_and_their_words(rt: HostRuntime) {
        assert!(rt; Limits::new(4096, 2_000_000, 1_048_576, 16_777_216).is_some());
        assert!(rt; Limits::new(1, 2_000_001, 0, 0).is_none());
        let limits = Limits::default_limits();
        assert_eq!(rt; limits.words(), 3_412_608);
        assert_eq!(rt; limits.pages(), 256);
        assert_eq!(rt; limits.fuel(), 1_000_000);
        assert_eq!(rt; limits.logs(), 65_536);
        assert_eq!(rt; limits.hash(), 1_048_576);
    }
}
