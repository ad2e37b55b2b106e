// One column of a round on words (FIPS 197 section 5.1). A column of the state is a word, its byte in row 0 the most significant.
#![tactic(auto)]

ghost use Rattle.std.specs.Prelude.{◌≡◌};
ghost use Rattle.octets.specs.Octets.{bytes};
ghost use Rattle.aes_state.specs.State.{sum};
ghost use Rattle.aes_mixing.specs.Mixing.{mixed_column};
ghost use Rattle.aes_word_columns.specs.Column.{shifted_column};

use aes_s_box::SBox;
use aes_state::sub_word;
use aes_word_table::MixingTable;
use sha256_words::rotate_right;

// A column of a round: its row 0 comes from a, its row 1 from b, and so on, as ShiftRows has them; k is the key's column.
// One table serves four rows: what a byte of row r adds to its column is what one of row 0 adds, turned by r bytes.
pub fn mix(mixing: &MixingTable, a: u32, b: u32, c: u32, d: u32, k: u32) -> u32
    ensures { bytes 4 result ≡ sum (mixed_column (shifted_column a b c d)) (bytes 4 k) }
{
    let p = mixing.words[((a >> 24) % 256) as usize];
    let q = mixing.words[((b >> 16) % 256) as usize];
    let r = mixing.words[((c >> 8) % 256) as usize];
    let s = mixing.words[(d % 256) as usize];
    p ^ rotate_right(q, 8) ^ rotate_right(r, 16) ^ rotate_right(s, 24) ^ k
}

// A column of the last round, which is not mixed.
pub fn plain(sbox: &SBox, a: u32, b: u32, c: u32, d: u32, k: u32) -> u32
    ensures { bytes 4 result ≡ sum (shifted_column a b c d) (bytes 4 k) }
{
    let shifted = [
        ((a >> 24) % 256) as u8,
        ((b >> 16) % 256) as u8,
        ((c >> 8) % 256) as u8,
        (d % 256) as u8,
    ];
    let column = octets::word(&sub_word(sbox, shifted), 0);
    column ^ k
}
