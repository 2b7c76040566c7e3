//! What a thread makes of its home word and of the header of its log.

ghost use Rattle.std.specs.Prelude.{◌≡◌};
ghost use Rattle.ds_plain.specs.Listing.{home_seen, header_seen};
ghost use Rattle.ds_list.specs.Walks.{home_in, IsWithin, header_in};

use ds_entry::read_header;
use ds_map::Limits;

/// How many entries a log has.
const LOG_ENTRIES: u8 = 14;

/// What a home word says.
pub(crate) enum HomeWord {
    /// The thread has no log for the place.
    NoHome,
    /// It has this one.
    HomeOf(u32),
    /// This is no home word.
    NoHomeWord,
}

/// What a header says to a thread that notes in a life.
pub(crate) enum HeaderWord {
    /// The entries are about this life, and one is left.
    HasRoom,
    /// They are about this life, and all are used.
    HasNoRoom,
    /// They are about another life.
    OfOther,
    /// This is no header.
    NoHeader,
}

/// What a word says of a thread's log for a place.
pub(crate) fn home_seen(limits: &Limits, word: u64) -> HomeWord
    ensures seen { home_in result ≡ home_seen limits.now word }
    ensures within { IsWithin limits.now result }
{
    if word == 0 {
        return HomeWord::NoHome;
    }
    if word > u64::from(limits.logs()) {
        return HomeWord::NoHomeWord;
    }
    HomeWord::HomeOf((word - 1) as u32)
}

/// What a word says of a log to a thread that notes in this life.
pub(crate) fn header_seen(life: u32, word: u64) -> HeaderWord
    ensures { header_in result ≡ header_seen life word }
{
    let header = read_header(word);
    if header.used > LOG_ENTRIES || header.chunk != 0 {
        return HeaderWord::NoHeader;
    }
    if header.life != life {
        return HeaderWord::OfOther;
    }
    if header.used == LOG_ENTRIES {
        HeaderWord::HasNoRoom
    } else {
        HeaderWord::HasRoom
    }
}
