// AES-128 on words (FIPS 197 section 5.1): the rounds on four columns, by a table; of one block, and of two side by side.
#![tactic(auto)]

ghost use Rattle.std.specs.Prelude.{◌≡◌, ◌++◌};
ghost use Rattle.aes_s_box.specs.Box.{Box};
ghost use Rattle.aes_state.specs.State.{input as input_of, output as output_of, sub_bytes, add_round_key};
ghost use Rattle.aes_shifting.specs.Shifting.{shift_rows};
ghost use Rattle.aes_mixing.specs.Mixing.{mix_columns};
ghost use Rattle.aes_byte_rounds.specs.Cipher.{round_key, encrypted};
ghost use Rattle.aes_word_table.specs.Table.{Mixing};
ghost use Rattle.aes_word_state.specs.Columns.{state_of};

use aes_byte_rounds::ROUNDS;
use aes_s_box::SBox;
use aes_schedule::round_key;
use aes_word_columns::{mix, plain};
use aes_word_state::{Columns, add_round_key, input, output};
use aes_word_table::MixingTable;

// Section 5.1: a round.
fn one_round(mixing: &MixingTable, s: Columns, key: Columns) -> Columns
    ensures { state_of result ≡ add_round_key (mix_columns (shift_rows (sub_bytes (state_of s)))) (state_of key) }
{
    Columns {
        a: mix(mixing, s.a, s.b, s.c, s.d, key.a),
        b: mix(mixing, s.b, s.c, s.d, s.a, key.b),
        c: mix(mixing, s.c, s.d, s.a, s.b, key.c),
        d: mix(mixing, s.d, s.a, s.b, s.c, key.d),
    }
}

// Section 5.1: the last round, which does not mix the columns.
// Kept: it differs from `one_round` in table, callee and contract; one function with a closure for a column needs both contracts and a law of closures.
fn last_round(sbox: &SBox, s: Columns, key: Columns) -> Columns
    ensures { state_of result ≡ add_round_key (shift_rows (sub_bytes (state_of s))) (state_of key) }
{
    Columns {
        a: plain(sbox, s.a, s.b, s.c, s.d, key.a),
        b: plain(sbox, s.b, s.c, s.d, s.a, key.b),
        c: plain(sbox, s.c, s.d, s.a, s.b, key.c),
        d: plain(sbox, s.d, s.a, s.b, s.c, key.d),
    }
}

// Section 5.1: what the rounds begin with, a block and the first round key.
fn begin(schedule: &[u8; 176], block: &[u8; 16]) -> Columns
    ensures { state_of result ≡ add_round_key (input_of block.now) (round_key schedule.now 0) }
{
    add_round_key(input(block), input(round_key(schedule, 0)))
}

// Section 5.1: what they end with, the last round and a block.
fn finish(sbox: &SBox, schedule: &[u8; 176], s: Columns) -> [u8; 16]
    ensures { result ≡ output_of (add_round_key (shift_rows (sub_bytes (state_of s))) (round_key schedule.now 10)) }
{
    output(last_round(sbox, s, input(round_key(schedule, ROUNDS))))
}

// What the rounds look up: a round's table, and the S-box for the last one.
#[derive(Drop)]
pub struct Tables {
    pub mixing: MixingTable,
    pub sbox: SBox,
}

impl Tables {
    // Both tables.
    pub fn new() -> Tables
        ensures { Mixing result.mixing.words × Box result.sbox.bytes }
    {
        Tables {
            mixing: aes_word_table::table(),
            sbox: aes_s_box::table(),
        }
    }

    // Section 5.1: Cipher, with both tables lent.
    pub fn encrypt(&self, schedule: &[u8; 176], block: &[u8; 16]) -> [u8; 16]
        ensures { result ≡ encrypted schedule.now block.now }
    {
        let mut s = begin(schedule, block);
        for round in 1..ROUNDS {
            s = one_round(&self.mixing, s, input(round_key(schedule, round)));
        }
        finish(&self.sbox, schedule, s)
    }

    // Cipher of two blocks, one after the other in the answer. Their rounds go side by side: alone, a block waits for its own look-ups.
    pub fn encrypt_two(&self, schedule: &[u8; 176], one: &[u8; 16], two: &[u8; 16]) -> [u8; 32]
        ensures { result ≡ encrypted schedule.now one.now ++ encrypted schedule.now two.now }
    {
        let mut s = begin(schedule, one);
        let mut t = begin(schedule, two);
        for round in 1..ROUNDS {
            let key = input(round_key(schedule, round));
            s = one_round(&self.mixing, s, key);
            t = one_round(&self.mixing, t, key);
        }
        let mut blocks = [0u8; 32];
        octets::copy(&mut blocks, 0, &finish(&self.sbox, schedule, s));
        octets::copy(&mut blocks, 16, &finish(&self.sbox, schedule, t));
        blocks
    }
}

// Section 5.1: Cipher.
pub fn encrypt(schedule: &[u8; 176], block: &[u8; 16]) -> [u8; 16]
    ensures { result ≡ encrypted schedule.now block.now }
{
    Tables::new().encrypt(schedule, block)
}
