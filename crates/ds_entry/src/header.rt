//! The header of a log, which has 14 entries.
//!
//! Bits 32 to 63 are the life of the block that its entries are about, bits 24 to 31 how many of its entries are used,
//! and bits 0 to 23 its hash chunk, 0 where it has none.

ghost use Rattle.std.specs.Prelude.{◌≡◌, ◌^◌, ◌<◌};
ghost use Rattle.ds_entry.specs.Header.{header_of, life_in, used_in, chunk_in};

/// What the life is multiplied by in a header: it stands from bit 32 on.
const LIFE_UNIT: u64 = 1 << 32;

/// What the number of used entries is multiplied by in a header: it stands from bit 24 on.
const USED_UNIT: u64 = 1 << 24;

/// How many numbers of used entries a header has room for.
const USED_NUMBERS: u64 = 1 << 8;

/// What a header tells of its log.
#[derive(Clone, Copy, Debug)]
pub struct Header {
    /// The life of the block that the log's entries are about.
    pub life: u32,
    /// How many of its entries are used.
    pub used: u8,
    /// Its hash chunk, below 2^24, or 0 where it has none.
    pub chunk: u32,
}

/// The header of a log whose entries are about this life, of which so many are used, with this hash chunk.
pub fn header_word(life: u32, used: u8, chunk: u32) -> u64
    requires { chunk < 2 ^ 24 }
    ensures exact { result ≡ header_of life used chunk }
    ensures life { life_in result ≡ life }
    ensures used { used_in result ≡ used }
    ensures chunk { chunk_in result ≡ chunk }
{
    u64::from(life) * LIFE_UNIT + u64::from(used) * USED_UNIT + u64::from(chunk)
}

/// What a header tells. Each word is one.
pub fn read_header(word: u64) -> Header
    ensures life { result.life ≡ life_in word }
    ensures used { result.used ≡ used_in word }
    ensures chunk { result.chunk ≡ chunk_in word }
    ensures below { result.chunk < 2 ^ 24 }
    ensures written { header_of result.life result.used result.chunk ≡ word }
{
    Header {
        life: (word / LIFE_UNIT) as u32,
        used: (word / USED_UNIT % USED_NUMBERS) as u8,
        chunk: (word % USED_UNIT) as u32,
    }
}
