//! Size classes: a page of the heap gets one of them, once, and is then cut into blocks of its size.
#![tactic(auto)]

ghost use Rattle.std.specs.Prelude.{◌≡◌, ℕ, ◌+◌, ◌*◌, ◌%◌, ◌<◌, ◌≤◌, ◌↔◌, IsNone, IfSome, slice_index};
ghost use Rattle.ds_map.specs.Blocks.{class_of, class_words, class_blocks};
ghost use Rattle.ds_class.specs.Classes.{class_counts};

/// The words of a block, by its size class.
const CLASS_SIZES: [u32; 15] = [2, 4, 6, 8, 12, 16, 24, 32, 48, 64, 96, 128, 192, 256, 512];

/// The number of words of a page.
const PAGE_WORDS: u32 = 512;

/// The size class (0 to 14) of a request for `n` bytes: the least one whose blocks have at least `n + 1` bytes, so that
/// a pointer one past the end points into its own block.
///
/// `None` exactly where `n` is above 4,095.
pub fn class_of(n: u64) -> Option<u8>
    ensures exact { result ≡ class_of n }
    ensures none { IsNone result ↔ (4095 < n) }
    ensures below { IfSome result (λ class. class < 15) }
    ensures fits { IfSome result (λ class. n + 1 ≤ 8 * class_words class) }
    ensures least { IfSome result (λ class. (smaller : ℕ) → smaller < class → 8 * class_words smaller < n + 1) }
{
    match n {
        0..=15 => Some(0),
        16..=31 => Some(1),
        32..=47 => Some(2),
        48..=63 => Some(3),
        64..=95 => Some(4),
        96..=127 => Some(5),
        128..=191 => Some(6),
        192..=255 => Some(7),
        256..=383 => Some(8),
        384..=511 => Some(9),
        512..=767 => Some(10),
        768..=1023 => Some(11),
        1024..=1535 => Some(12),
        1536..=2047 => Some(13),
        2048..=4095 => Some(14),
        _ => None,
    }
}

/// The words of a block of this size class: 2 to 512, an even number.
pub fn class_words(class: u8) -> u32
    requires { class < 15 }
    ensures exact { result ≡ class_words class }
    ensures least { 2 ≤ result }
    ensures most { result ≤ 512 }
    ensures even { result % 2 ≡ 0 }
{
    CLASS_SIZES[class as usize]
}

/// How many blocks of this size class a page has: as many as fit, 1 to 256.
pub fn class_blocks(class: u8) -> u32
    requires { class < 15 }
    ensures exact { result ≡ class_blocks class }
    ensures counted { result ≡ slice_index class_counts class }
    ensures least { 1 ≤ result }
    ensures most { result ≤ 256 }
    ensures fits { result * class_words class ≤ 512 }
    ensures no_more { 512 < (result + 1) * class_words class }
{
    PAGE_WORDS / class_words(class)
}

#[cfg(test)]
mod tests {
    use super::*;

    #[test]
    fn classes_and_their_sizes(rt: HostRuntime) {
        assert_eq!(rt; class_of(0), Some(0));
        assert_eq!(rt; class_of(15), Some(0));
        assert_eq!(rt; class_of(16), Some(1));
        assert_eq!(rt; class_of(4095), Some(14));
        assert_eq!(rt; class_of(4096), None);
        assert_eq!(rt; class_words(8), 48);
        assert_eq!(rt; class_blocks(8), 10);
    }
}
