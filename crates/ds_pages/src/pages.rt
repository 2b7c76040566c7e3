//! Page words, and the blocks of a page.

ghost use Rattle.std.specs.Prelude.{◌≡◌, ℕ, ◌+◌, ◌-◌, ◌*◌, ◌%◌, ◌^◌, ◌<◌, ◌≤◌, ◌↔◌};
ghost use Rattle.std.specs.Prelude.{Option, Some, IsNone, IsSomeAnd, IfSome, IsTrue};
ghost use Rattle.ds_map.specs.Bounds.{Bounds};
ghost use Rattle.ds_map.specs.Regions.{heap, LiesIn};
ghost use Rattle.ds_map.specs.Blocks.{Pages, class_words, class_blocks, page_word, page_of, index_of, page_at};
ghost use Rattle.ds_map.specs.Blocks.{page_start, block_start, place_in, place_holding, place_starting};
ghost use Rattle.ds_pages.specs.Words.{is_page_word, IsClass, class_in, block_at, IsHolding, IsStarting};

use ds_class::{class_blocks, class_words};

/// The address of the heap's first byte.
const HEAP_START: u64 = 0x100_0000;

/// The number of bytes of a page.
const PAGE_BYTES: u64 = 4096;

/// The number of places of a page.
const PAGE_PLACES: u32 = 256;

/// Whether a word can be that of a page: 0, or one more than a size class, 1 to 15.
pub fn is_page_word(word: u64) -> bool
    ensures exact { result ≡ is_page_word word }
    ensures means { IsTrue result ↔ ((class : Option ℕ) × IsClass class × (word ≡ page_word class)) }
    ensures written { page_word (class_in word) ≡ word }
    ensures read { (class : Option ℕ) → word ≡ page_word class → class_in word ≡ class }
{
    word <= 15
}

/// The size class of a page of this word.
fn class_of_page(page_word: u64) -> u8
    requires some_class { 1 ≤ page_word }
    requires page_word { page_word ≤ 15 }
    ensures { result ≡ page_word - 1 }
{
    (page_word - 1) as u8
}

/// The place of the block that holds the byte at an address of the heap, in a page of this word.
///
/// `None` exactly where none does: the page has no class, or the byte lies behind its last block.
pub fn block_of(address: u64, page_word: u64) -> Option<u32>
    requires low { 0x1000000 ≤ address }
    requires high { address < 0x2000000 }
    requires page_word { page_word ≤ 15 }
    ensures exact { result ≡ place_in (page_at address) ((address - 0x1000000) % 4096) (class_in page_word) }
    ensures below { IfSome result (λ place. place < 2 ^ 20) }
    ensures block { IfSome result (λ place. (1 ≤ page_word) × (index_of place < class_blocks (page_word - 1))) }
    ensures holds { (place : ℕ) → (result ≡ Some place) ↔ IsHolding page_word place address }
    ensures heap { (lim : Bounds) (pages : Pages) → LiesIn (heap lim) address
        → pages (page_at address) ≡ class_in page_word → result ≡ place_holding lim pages address }
{
    if page_word == 0 {
        return None;
    }
    let class = class_of_page(page_word);
    let page = ((address - HEAP_START) / PAGE_BYTES) as u32;
    let offset = ((address - HEAP_START) % PAGE_BYTES) as u32;
    let index = offset / (8 * class_words(class));
    if index < class_blocks(class) {
        Some(PAGE_PLACES * page + index)
    } else {
        None
    }
}

/// The place and the words of the block that starts at an address of the heap, in a page of this word.
///
/// `None` exactly where none does.
pub fn starts_at(address: u64, page_word: u64) -> Option<(u32, u32)>
    requires low { 0x1000000 ≤ address }
    requires high { address < 0x2000000 }
    requires page_word { page_word ≤ 15 }
    ensures none { IsNone result ↔ IsNone (block_at address page_word) }
    ensures place { IfSome result (λ found. block_at address page_word ≡ Some found.0) }
    ensures words { IfSome result (λ found. found.1 ≡ class_words (page_word - 1)) }
    ensures page { IfSome result (λ found. page_of found.0 ≡ page_at address) }
    ensures below { IfSome result (λ found. found.0 < 2 ^ 20) }
    ensures block { IfSome result (λ found. (1 ≤ page_word) × (index_of found.0 < class_blocks (page_word - 1))) }
    ensures start { IfSome result (λ found. block_start found.0 (page_word - 1) ≡ address) }
    ensures starts { (place : ℕ) → IsSomeAnd result (λ found. found.0 ≡ place) ↔ IsStarting page_word place address }
    ensures heap { (lim : Bounds) (pages : Pages) → LiesIn (heap lim) address
        → pages (page_at address) ≡ class_in page_word → block_at address page_word ≡ place_starting lim pages address }
{
    let place = block_of(address, page_word)?;
    if start_of(place, page_word) == address {
        Some((place, class_words(class_of_page(page_word))))
    } else {
        None
    }
}

/// The address at which the block of a place starts, in a page of this word.
///
/// Also for a place that is that of no block: as if the page's blocks went on behind its last.
pub fn start_of(place: u32, page_word: u64) -> u64
    requires some_class { 1 ≤ page_word }
    requires page_word { page_word ≤ 15 }
    ensures exact { result ≡ block_start place (page_word - 1) }
    ensures low { 0x1000000 ≤ result }
    ensures aligned { result % 16 ≡ 0 }
    ensures high { place < 2 ^ 20 → index_of place < class_blocks (page_word - 1) → result < 0x2000000 }
    ensures page { index_of place < class_blocks (page_word - 1) → page_at result ≡ page_of place }
    ensures whole { index_of place < class_blocks (page_word - 1)
        → result + 8 * class_words (page_word - 1) ≤ page_start (page_of place) + 4096 }
    ensures held { index_of place < class_blocks (page_word - 1)
        → place_in (page_at result) ((result - 0x1000000) % 4096) (class_in page_word) ≡ Some place }
    ensures started { index_of place < class_blocks (page_word - 1) → block_at result page_word ≡ Some place }
{
    let page = u64::from(place / PAGE_PLACES);
    let index = u64::from(place % PAGE_PLACES);
    let words = u64::from(class_words(class_of_page(page_word)));
    HEAP_START + PAGE_BYTES * page + 8 * words * index
}

#[cfg(test)]
mod tests {
    use super::*;

    #[test]
    fn pages_and_their_blocks(rt: HostRuntime) {
        assert!(rt; is_page_word(15));
        assert!(rt; !is_page_word(16));
        assert_eq!(rt; block_of(0x100_0000, 0), None);
        assert_eq!(rt; block_of(0x100_1010, 1), Some(257));
        assert_eq!(rt; block_of(0x100_0eff, 9), Some(9));
        assert_eq!(rt; block_of(0x100_0f00, 9), None);
        assert_eq!(rt; starts_at(0x100_0d80, 9), Some((9, 48)));
        assert_eq!(rt; starts_at(0x100_0d88, 9), None);
        assert_eq!(rt; start_of(1_048_320, 15), 0x1ff_f000);
    }
}
