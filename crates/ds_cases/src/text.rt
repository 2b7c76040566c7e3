//! Adding to texts.
use std::alloc::AllocError;

/// Adds bytes with a word wherever the place stands in them.
pub fn push_with(
    text: &mut Vec<u8>,
    bytes: &[u8],
    place: &[u8],
    word: &[u8],
) -> Result<(), AllocError> {
    let mut rest = bytes;
    'rest: while let Some((first, behind)) = rest.split_first() {
        match rest.strip_prefix(place) {
            Some(behind) if behind.len() < rest.len() => {
                text.extend_from_slice(word)?;
                rest = behind;
            }
            _ => {
                text.push(*first)?;
                rest = behind;
            }
        }
    }
    Ok(())
}
