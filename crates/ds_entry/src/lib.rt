//! The words of a log: its header, and its entries, each of which holds up to three locations of one group.
//!
//! Of an entry bits 48 and 49 are the count of the locations that it holds, bits 24 to 47 their group, which is a
//! location divided by 256, and bits 0 to 7, 8 to 15 and 16 to 23 their offsets in the group, in the order in which
//! they were added. The word 0 is the empty entry.
//!
//! The header of a log is the word that says which life its entries are about, and how many of them are used.
#![tactic(auto)]

ghost use Rattle.std.specs.Prelude.{◌≡◌, ℕ, ◌^◌, ◌<◌, ◌≤◌, ◌↔◌, [], ◌∷◌, Contains, IsNone, IsTrue, slice_get};
ghost use Rattle.ds_entry.specs.Entry.{count_of, location_at, locations_of, is_held, entry_of};

mod header;
mod laws;

pub use header::{Header, header_word, read_header};
pub use laws::{empty_holds_none, entries_are_apart, entries_hold_theirs};

/// The number of locations of a group.
const GROUP_LOCATIONS: u64 = 256;

/// What the number of a group is multiplied by in an entry: it stands from bit 24 on.
const GROUP_UNIT: u64 = 1 << 24;

/// The number of groups that an entry has room for.
const GROUPS: u64 = 1 << 24;

/// What the count is multiplied by in an entry: it stands from bit 48 on.
const COUNT_UNIT: u64 = 1 << 48;

/// The entry that holds this one location.
pub fn pack(loc: u32) -> u64
    ensures exact { result ≡ entry_of loc }
    ensures held { locations_of result ≡ loc ∷ [] }
    ensures least { 2 ^ 48 ≤ result }
    ensures below { result < 2 ^ 49 }
{
    let loc = u64::from(loc);
    COUNT_UNIT + loc / GROUP_LOCATIONS * GROUP_UNIT + loc % GROUP_LOCATIONS
}

/// Whether the entry holds the location.
pub fn holds(entry: u64, loc: u32) -> bool
    ensures exact { result ≡ is_held entry loc }
    ensures means { IsTrue result ↔ Contains (locations_of entry) loc }
{
    match count(entry) {
        0 => false,
        1 => location(entry, 0) == loc,
        2 => location(entry, 0) == loc || location(entry, 1) == loc,
        _ => location(entry, 0) == loc || location(entry, 1) == loc || location(entry, 2) == loc,
    }
}

/// The location with this number in the entry, in the order in which they were added, from 0 on.
///
/// `None` exactly where the entry holds no more than so many.
pub fn unpack(entry: u64, i: u32) -> Option<u32>
    ensures exact { result ≡ slice_get (locations_of entry) i }
    ensures none { IsNone result ↔ (count_of entry ≤ i) }
{
    if i < count(entry) {
        Some(location(entry, i))
    } else {
        None
    }
}

/// How many locations the entry holds.
fn count(entry: u64) -> u32
    ensures { result ≡ count_of entry }
{
    (entry / COUNT_UNIT % 4) as u32
}

/// The location with this number in the entry, also where it holds fewer.
fn location(entry: u64, number: u32) -> u32
    requires { number < 3 }
    ensures { result ≡ location_at entry number }
{
    let group = entry / GROUP_UNIT % GROUPS;
    let offset = (entry >> (8 * number)) % GROUP_LOCATIONS;
    (GROUP_LOCATIONS * group + offset) as u32
}

#[cfg(test)]
mod tests {
    use super::*;

    #[test]
    fn entries_and_their_locations(rt: HostRuntime) {
        assert_eq!(rt; pack(0), 0x0001_0000_0000_0000);
        assert_eq!(rt; pack(300), 0x0001_0000_0100_002c);
        assert!(rt; holds(0x0003_0000_012e_2d2c, 302));
        assert!(rt; !holds(0x0002_0000_012e_2d2c, 302));
        assert_eq!(rt; unpack(0x0002_0000_0100_2d2c, 1), Some(301));
        assert_eq!(rt; unpack(0x0002_0000_0100_2d2c, 2), None);
        assert_eq!(rt; header_word(2, 3, 0), 0x0000_0002_0300_0000);
        assert_eq!(rt; read_header(0x0000_0002_0300_0000).used, 3);
    }
}
