// The key schedule (FIPS 197 section 5.2): 44 words of four bytes, one after the other.
#![tactic(auto)]

ghost use Rattle.std.specs.Prelude.{◌≡◌, ◌*◌, ◌%◌, ◌≤◌, ◌<◌, length, eqb};
ghost use Rattle.octets.specs.Octets.{part};
ghost use Rattle.aes_schedule.specs.Expansion.{word, rot_word, Powers, rcon, turned, next_word, expansion};

use aes_s_box::SBox;
use aes_state::{sub_word, sum};

// Table 5: the first bytes of Rcon[1] to Rcon[10], the powers of x.
const POWERS: [u8; 10] = *b"\x01\x02\x04\x08\x10\x20\x40\x80\x1b\x36";

// Table 5: the powers of x, from the first on.
fn powers() -> [u8; 10]
    ensures { Powers result }
{
    POWERS
}

// Table 5: Rcon[j].
fn rcon(j: usize) -> [u8; 4]
    requires { (1 ≤ j) × (j ≤ 10) }
    ensures { result ≡ rcon j }
{
    [powers()[j - 1], 0, 0, 0]
}

// RotWord.
fn rot_word(a: [u8; 4]) -> [u8; 4]
    ensures { result ≡ rot_word a }
{
    [a[1], a[2], a[3], a[0]]
}

// Algorithm 2: what is made of the word before word i.
fn turned(sbox: &SBox, temp: [u8; 4], i: usize) -> [u8; 4]
    requires { (4 ≤ i) × (i < 44) }
    ensures { result ≡ turned (eqb (i % 4) 0) i temp }
{
    if i % 4 == 0 {
        return sum(sub_word(sbox, rot_word(temp)), rcon(i / 4));
    }
    temp
}

// Word i of the schedule.
// Kept: that an index is below 44 is said by three steps of one loop, each of another index (i, i - 1, i - 4): no value travels.
fn word(w: &[u8; 176], i: usize) -> [u8; 4]
    requires { i < 44 }
    ensures { result ≡ word w.now i }
{
    std::array::from_fn(|j| w[4 * i + j])
}

// Algorithm 2: word i, from the words before it.
fn next_word(sbox: &SBox, w: &[u8; 176], i: usize) -> [u8; 4]
    requires { (4 ≤ i) × (i < 44) }
    ensures { result ≡ next_word w.now i }
{
    sum(word(w, i - 4), turned(sbox, word(w, i - 1), i))
}

// Section 5.2: KeyExpansion.
pub fn expand_key(key: &[u8; 16]) -> [u8; 176]
    ensures { result ≡ expansion key.now }
{
    let sbox = aes_s_box::table();
    let mut w = [0u8; 176];
    octets::copy(&mut w, 0, key);
    for i in 4..44 {
        let next = next_word(&sbox, &w, i);
        octets::copy(&mut w, 4 * i, &next);
    }
    w
}

// Section 5.1: the round key of a round, four words of the schedule.
pub fn round_key(schedule: &[u8; 176], round: usize) -> &[u8]
    requires { round ≤ 10 }
    ensures part { result.now ≡ part schedule.now (16 * round) 16 }
    ensures whole { length result.now ≡ 16 }
{
    let at = 16 * round;
    &schedule[at..at + 16]
}
