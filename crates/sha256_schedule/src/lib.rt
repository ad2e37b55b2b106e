// The message schedule of a block (FIPS 180-4 section 5.2.1 and section 6.2.2 step 1).
#![tactic(auto)]

ghost use Rattle.std.specs.Prelude.{◌≡◌, ℕ, ◌<◌, length, slice_index};
ghost use Rattle.sha256_schedule.specs.Schedule.{words, W};

use sha256_words::{small_sigma0, small_sigma1};

// Section 5.2.1: the sixteen words of a block.
pub fn parse(block: &[u8]) -> [u32; 16]
    requires { length block.now ≡ 64 }
    ensures { result ≡ words block.now }
{
    let mut m = [0u32; 16];
    for i in 0..16 {
        m[i] = octets::word(block, 4 * i);
    }
    m
}

// Section 6.2.2 step 1: the word at t of the message schedule, from those before it.
fn schedule_word(m: &[u32; 16], w: &[u32; 64], t: usize) -> u32
    requires { (length m.now ≡ 16) × (t < 64) × ((i : ℕ) → i < t → slice_index w.now i ≡ W m.now i) }
    ensures { result ≡ W m.now t }
{
    if t < 16 {
        return m[t];
    }
    small_sigma1(w[t - 2])
        .wrapping_add(w[t - 7])
        .wrapping_add(small_sigma0(w[t - 15]))
        .wrapping_add(w[t - 16])
}

// Section 6.2.2 step 1: the message schedule of a block's words.
pub fn schedule(m: [u32; 16]) -> [u32; 64]
    ensures { (t : ℕ) → t < 64 → slice_index result t ≡ W m t }
{
    let mut w = [0u32; 64];
    for t in 0..64 {
        w[t] = schedule_word(&m, &w, t);
    }
    w
}
