// The state, four rows of four bytes, and the steps of a round that go byte by byte (FIPS 197 sections 3.4, 5.1.1 and 5.1.4).
#![tactic(auto)]

ghost use Rattle.std.specs.Prelude.{◌≡◌, length};
ghost use Rattle.aes_state.specs.State.{sum, sub_word, input, output, sub_bytes, add_round_key};

use aes_s_box::SBox;

// The sum of two words, or of two rows of a state.
pub fn sum(a: [u8; 4], b: [u8; 4]) -> [u8; 4]
    ensures { result ≡ sum a b }
{
    std::array::from_fn(|i| a[i] ^ b[i])
}

// Four bytes, substituted: SubWord of section 5.2, and a row of SubBytes.
pub fn sub_word(sbox: &SBox, a: [u8; 4]) -> [u8; 4]
    ensures { result ≡ sub_word a }
{
    a.map(|b| sbox.substitute(b))
}

// Section 3.4: a block as a state, column by column.
pub fn input(block: &[u8]) -> [[u8; 4]; 4]
    requires { length block.now ≡ 16 }
    ensures { result ≡ input block.now }
{
    [
        [block[0], block[4], block[8], block[12]],
        [block[1], block[5], block[9], block[13]],
        [block[2], block[6], block[10], block[14]],
        [block[3], block[7], block[11], block[15]],
    ]
}

// Section 3.4: a state as a block.
pub fn output(s: [[u8; 4]; 4]) -> [u8; 16]
    ensures { result ≡ output s }
{
    let [a, b, c, d] = s;
    [
        a[0], b[0], c[0], d[0], a[1], b[1], c[1], d[1], a[2], b[2], c[2], d[2], a[3], b[3], c[3],
        d[3],
    ]
}

// Section 5.1.1: SubBytes.
pub fn sub_bytes(sbox: &SBox, s: [[u8; 4]; 4]) -> [[u8; 4]; 4]
    ensures { result ≡ sub_bytes s }
{
    // Kept: of `s.map(|row| sub_word(sbox, row))` the search didn't prove `returns`: what `map` ensures holds row by row, under the array's model.
    let [a, b, c, d] = s;
    [
        sub_word(sbox, a),
        sub_word(sbox, b),
        sub_word(sbox, c),
        sub_word(sbox, d),
    ]
}

// Section 5.1.4: AddRoundKey.
pub fn add_round_key(s: [[u8; 4]; 4], k: [[u8; 4]; 4]) -> [[u8; 4]; 4]
    ensures { result ≡ add_round_key s k }
{
    let [a, b, c, d] = s;
    let [e, f, g, h] = k;
    [sum(a, e), sum(b, f), sum(c, g), sum(d, h)]
}
