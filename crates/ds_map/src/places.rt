//! Addresses, locations and words of the table.

ghost use Rattle.std.specs.Prelude.{◌≡◌, ℕ, ◌+◌, ◌-◌, ◌*◌, ◌/◌, ◌%◌, ◌^◌, ◌<◌, ◌≤◌, ◌↔◌, Some, IsSome, IfSome};
ghost use Rattle.ds_map.specs.Bounds.{Bounds, IsInRange};
ghost use Rattle.ds_map.specs.Regions.{stack, LiesIn, IsMapped, program_words, location_in, location_of, address_of};
ghost use Rattle.ds_map.specs.Words.{first_program_word, words, word_of};

use crate::bounds::Limits;

/// The first address of the globals.
const GLOBALS_START: u64 = 0x1000;

/// The first address of the stacks of the 16 threads, which lie side by side.
const STACKS_START: u64 = 0x10_0000;

/// The first address of the heap.
const HEAP_START: u64 = 0x100_0000;

/// The number of words of the globals.
const GLOBALS_WORDS: u32 = 4096;

/// The number of words of the 16 stacks together.
const STACKS_WORDS: u32 = 65_536;

/// The location of the heap's first word.
const HEAP_LOCATION: u32 = GLOBALS_WORDS + STACKS_WORDS;

/// The number of words of a page of the heap.
const PAGE_WORDS: u32 = 512;

/// The number of the table's words that stand before those of the pages.
const CONTROL_WORDS: u32 = 384;

/// The number of the table's words for each page that say what it holds: a page word, 256 block words and 4,096
/// home words.
const RECORDS_OF_PAGE: u32 = 1 + 256 + 4096;

/// The number of the table's words for each log.
const LOG_WORDS: u32 = 16;

/// How many program words there are.
pub(crate) fn program_words(limits: &Limits) -> u32
    ensures { result ≡ program_words limits.now }
{
    HEAP_LOCATION + PAGE_WORDS * limits.pages()
}

/// The table's word of location 0.
pub(crate) fn first_program_word(limits: &Limits) -> u32
    ensures first { result ≡ first_program_word limits.now }
    ensures room { words limits.now < 2 ^ 32 }
    ensures in_range { IsInRange limits.now }
{
    CONTROL_WORDS + RECORDS_OF_PAGE * limits.pages() + LOG_WORDS * limits.logs() + limits.hash()
}

/// The location of the word that holds the byte at an address, among so many words from a first address and a
/// first location on.
fn location_among(address: u64, start: u64, count: u32, first: u32) -> Option<u32>
    requires locations { first + count < 2 ^ 32 }
    requires addresses { start < 2 ^ 32 }
    ensures inside { IsSome result ↔ (start ≤ address × address < start + 8 * count) }
    ensures location { IfSome result (λ loc. loc ≡ first + (address - start) / 8) }
{
    if address < start || start + 8 * u64::from(count) <= address {
        return None;
    }
    Some(first + ((address - start) / 8) as u32)
}

/// The location of the word that holds the byte at an address.
///
/// `None` exactly where the address lies in no region: not in the globals, not in a thread's stack, and not in the
/// heap.
pub fn location(limits: &Limits, address: u64) -> Option<u32>
    ensures exact { result ≡ location_of limits.now address }
    ensures mapped { IsSome result ↔ IsMapped limits.now address }
    ensures holds { IfSome result (λ loc. address_of loc ≤ address × address < address_of loc + 8) }
    ensures rounds { IfSome result (λ loc. address_of loc ≡ 8 * (address / 8)) }
    ensures below { IfSome result (λ loc. loc < program_words limits.now) }
    ensures stacks { (t : ℕ) → t < 16 → LiesIn (stack t) address → result ≡ Some (location_in (stack t) address) }
{
    if address < STACKS_START {
        location_among(address, GLOBALS_START, GLOBALS_WORDS, 0)
    } else if address < HEAP_START {
        location_among(address, STACKS_START, STACKS_WORDS, GLOBALS_WORDS)
    } else {
        location_among(
            address,
            HEAP_START,
            PAGE_WORDS * limits.pages(),
            HEAP_LOCATION,
        )
    }
}

/// The address of a location's first byte.
pub fn address(loc: u32) -> u64
    ensures exact { result ≡ address_of loc }
    ensures aligned { result % 8 ≡ 0 }
    ensures located { (lim : Bounds) → loc < program_words lim → location_of lim result ≡ Some loc }
{
    let loc = u64::from(loc);
    if loc < 4096 {
        GLOBALS_START + 8 * loc
    } else if loc < 69_632 {
        STACKS_START + 8 * (loc - 4096)
    } else {
        HEAP_START + 8 * (loc - 69_632)
    }
}

/// The table's word of a location.
pub fn word_of(limits: &Limits, loc: u32) -> u32
    requires { loc < program_words limits.now }
    ensures exact { result ≡ word_of limits.now loc }
    ensures below { result < words limits.now }
    ensures injective { (other : ℕ) → word_of limits.now other ≡ result → other ≡ loc }
{
    first_program_word(limits) + loc
}

#[cfg(test)]
mod tests {
    use super::*;

    #[test]
    fn locations_addresses_and_words(rt: HostRuntime) {
        let limits = Limits::default_limits();
        assert_eq!(rt; location(&limits, 0x8fff), Some(4095));
        assert_eq!(rt; location(&limits, 0x9000), None);
        assert_eq!(rt; location(&limits, 0x17_ffff), Some(69_631));
        assert_eq!(rt; location(&limits, 0x10f_ffff), Some(200_703));
        assert_eq!(rt; address(4096), 0x10_0000);
        assert_eq!(rt; address(200_703), 0x10f_fff8);
        assert_eq!(rt; word_of(&limits, 0), 3_211_904);
    }
}
