//! The pages and places at which a malloc looks, and the words of the table that tell of them.

ghost use Rattle.std.specs.Prelude.{◌≡◌, ◌*◌, ◌<◌, ◌≤◌};
ghost use Rattle.ds_map.specs.Words.{words};
ghost use Rattle.ds_map.specs.Blocks.{class_blocks};
ghost use Rattle.ds_plain.specs.Searching.{page_in, first_index, end_index, place_in_search, visits, place_behind};
ghost use Rattle.ds_plain.specs.Searching.{page_word_in, block_word_in};
ghost use Rattle.ds_plain.specs.Reached.{IsPlace, IsSearch, IsLooked};

use ds_class::class_blocks;
use ds_map::Limits;
use ds_plain::Search;

/// The number of places of a page.
const PAGE_PLACES: u32 = 256;

/// The table's word of page 0. Those of the other pages follow it, and then those of the places.
const FIRST_PAGE_WORD: u32 = 384;

/// The page at which a malloc looks.
pub(crate) fn page_in(limits: &Limits, search: Search) -> u32
    requires { IsSearch limits.now search }
    ensures page { result ≡ page_in limits.now search }
    ensures below { result < limits.now.pages }
    ensures few { limits.now.pages ≤ 4096 }
{
    let pages = limits.pages();
    (search.first / PAGE_PLACES + search.passed) % pages
}

/// The index of the first block of the page at which a malloc looks.
pub(crate) fn first_index(search: Search) -> u32
    ensures { result ≡ first_index search }
{
    if search.passed == 0 {
        search.first % PAGE_PLACES
    } else {
        0
    }
}

/// The index behind the last block of the page at which a malloc looks.
pub(crate) fn end_index(limits: &Limits, search: Search) -> u32
    requires { IsSearch limits.now search }
    ensures end { result ≡ end_index limits.now search }
{
    if search.passed == limits.pages() {
        search.first % PAGE_PLACES
    } else {
        class_blocks(search.class)
    }
}

/// The place with an index in the page at which a malloc looks.
pub(crate) fn place_in_search(limits: &Limits, search: Search, index: u32) -> u32
    requires { IsLooked limits.now search index }
    ensures place { result ≡ place_in_search limits.now search index }
    ensures is_place { IsPlace limits.now search.class result }
    ensures below { result < 256 * limits.now.pages }
    ensures few { limits.now.pages ≤ 4096 }
{
    PAGE_PLACES * page_in(limits, search) + index
}

/// How often a malloc looks at a page in all, as far as it knows.
pub(crate) fn visits(limits: &Limits, search: Search) -> u32
    ensures visits { result ≡ visits limits.now search }
    ensures few { limits.now.pages ≤ 4096 }
{
    let pages = limits.pages();
    if search.again { pages + 1 } else { pages }
}

/// The table's word of the page at which a malloc looks.
pub(crate) fn page_word_in(limits: &Limits, search: Search) -> u32
    requires { IsSearch limits.now search }
    ensures word { result ≡ page_word_in limits.now search }
    ensures below { result < words limits.now }
{
    FIRST_PAGE_WORD + page_in(limits, search)
}

/// The table's word of the block with an index in the page at which a malloc looks.
pub(crate) fn block_word_in(limits: &Limits, search: Search, index: u32) -> u32
    requires { IsLooked limits.now search index }
    ensures word { result ≡ block_word_in limits.now search index }
    ensures below { result < words limits.now }
{
    FIRST_PAGE_WORD + limits.pages() + place_in_search(limits, search, index)
}

/// The place behind another one, among the places of a size class, and round.
pub fn place_behind(limits: &Limits, class: u8, place: u32) -> u32
    requires { IsPlace limits.now class place }
    ensures exact { result ≡ place_behind limits.now class place }
    ensures is_place { IsPlace limits.now class result }
{
    if place % PAGE_PLACES + 1 < class_blocks(class) {
        place + 1
    } else {
        PAGE_PLACES * ((place / PAGE_PLACES + 1) % limits.pages())
    }
}
