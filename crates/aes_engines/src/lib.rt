// Both engines of AES-128, on bytes and on words: for every key and every block they give the same.
#![tactic(auto)]

ghost use Rattle.std.specs.Prelude.{◌≡◌};
ghost use Rattle.aes_byte_rounds.specs.Cipher.{cipher};

// What each engine makes of a block.
#[derive(Clone, Copy)]
pub struct Both {
    pub bytes: [u8; 16],
    pub words: [u8; 16],
}

// A block under a key, by both.
pub fn encrypt(key: &[u8; 16], block: &[u8; 16]) -> Both
    ensures engines_agree { result.words ≡ result.bytes }
    ensures is_cipher { result.bytes ≡ cipher key.now block.now }
{
    let schedule = aes_schedule::expand_key(key);
    Both {
        bytes: aes_byte_rounds::encrypt(&schedule, block),
        words: aes_word_rounds::encrypt(&schedule, block),
    }
}
