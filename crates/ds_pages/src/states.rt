//! Block words.

ghost use Rattle.std.specs.Prelude.{◌≡◌, ℕ, ◌%◌, ◌^◌, ◌<◌, ◌≤◌, ◌⊎◌, ◌↔◌, Some, IsNone, IfSome};
ghost use Rattle.ds_pages.specs.declared.BlockState.{BlockState};
ghost use Rattle.ds_pages.specs.Words.{state_word, read_state};

use crate::BlockState;

/// The word of a block in this life and state.
pub fn state_word(life: u32, state: BlockState) -> u64
    ensures exact { result ≡ state_word life state }
    ensures below { result < 2 ^ 34 }
    ensures read { read_state result ≡ Some (life, state) }
{
    let code = match state {
        BlockState::Free => 0,
        BlockState::Live => 1,
        BlockState::Freeing => 2,
    };
    u64::from(life) * 4 + code
}

/// The life and the state that a block word tells.
///
/// `None` exactly where it is that of no block: from 2^34 on, and where it leaves 3 when divided by 4.
pub fn read_state(word: u64) -> Option<(u32, BlockState)>
    ensures exact { result ≡ read_state word }
    ensures none { IsNone result ↔ ((word % 4 ≡ 3) ⊎ (2 ^ 34 ≤ word)) }
    ensures written { IfSome result (λ told. state_word told.0 told.1 ≡ word) }
    ensures tells { (life : ℕ) (state : BlockState) →
        (result ≡ Some (life, state)) ↔ ((life < 2 ^ 32) × (word ≡ state_word life state)) }
{
    if word >= 1 << 34 {
        return None;
    }
    let state = match word % 4 {
        0 => BlockState::Free,
        1 => BlockState::Live,
        2 => BlockState::Freeing,
        _ => return None,
    };
    Some(((word / 4) as u32, state))
}

#[cfg(test)]
mod tests {
    use super::*;

    #[test]
    fn states_and_their_words(rt: HostRuntime) {
        assert_eq!(rt; state_word(1, BlockState::Free), 4);
        assert_eq!(rt; state_word(1, BlockState::Live), 5);
        assert_eq!(rt; state_word(1, BlockState::Freeing), 6);
        assert_eq!(rt; read_state(6), Some((1, BlockState::Freeing)));
        assert_eq!(rt; read_state(7), None);
        assert_eq!(rt;
            read_state(0x3_ffff_fffd),
            Some((0xffff_ffff, BlockState::Live))
        );
        assert_eq!(rt; read_state(0x4_0000_0000), None);
    }
}
