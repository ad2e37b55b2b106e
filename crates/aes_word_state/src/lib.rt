// A state as four columns (FIPS 197 section 3.4), and a round key added to it (section 5.1.4).
#![tactic(auto)]

ghost use Rattle.std.specs.Prelude.{◌≡◌, length};
ghost use Rattle.aes_state.specs.State.{output as output_of, add_round_key};
ghost use Rattle.aes_word_state.specs.Columns.{spelt, state_of};

// The four columns of a state.
#[derive(Clone, Copy)]
pub struct Columns {
    pub a: u32,
    pub b: u32,
    pub c: u32,
    pub d: u32,
}

// Section 3.4: a block as a state.
pub fn input(block: &[u8]) -> Columns
    requires { length block.now ≡ 16 }
    ensures { spelt result ≡ block.now }
{
    Columns {
        a: octets::word(block, 0),
        b: octets::word(block, 4),
        c: octets::word(block, 8),
        d: octets::word(block, 12),
    }
}

// Section 3.4: a state as a block.
pub fn output(s: Columns) -> [u8; 16]
    ensures { result ≡ output_of (state_of s) }
{
    let mut block = [0u8; 16];
    octets::store(&mut block, 0, 4, s.a as u64);
    octets::store(&mut block, 4, 4, s.b as u64);
    octets::store(&mut block, 8, 4, s.c as u64);
    octets::store(&mut block, 12, 4, s.d as u64);
    block
}

// Section 5.1.4: AddRoundKey.
pub fn add_round_key(s: Columns, key: Columns) -> Columns
    ensures { state_of result ≡ add_round_key (state_of s) (state_of key) }
{
    Columns {
        a: s.a ^ key.a,
        b: s.b ^ key.b,
        c: s.c ^ key.c,
        d: s.d ^ key.d,
    }
}
