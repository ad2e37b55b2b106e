// The 64 rounds of a block (FIPS 180-4 section 6.2.2 steps 2 to 4).
#![tactic(auto)]

ghost use Rattle.std.specs.Prelude.{◌≡◌, slice_index};
ghost use Rattle.sha256_rounds.specs.Rounds.{T₁, T₂, round, rounds, added};

use sha256_constants::Constants;
use sha256_words::{big_sigma0, big_sigma1, choice, majority};

// Section 6.2.2 step 3: T1.
fn temporary1(e: u32, f: u32, g: u32, h: u32, k: u32, w: u32) -> u32
    ensures { result ≡ T₁ e f g h k w }
{
    h.wrapping_add(big_sigma1(e))
        .wrapping_add(choice(e, f, g))
        .wrapping_add(k)
        .wrapping_add(w)
}

// Section 6.2.2 step 3: T2.
fn temporary2(a: u32, b: u32, c: u32) -> u32
    ensures { result ≡ T₂ a b c }
{
    big_sigma0(a).wrapping_add(majority(a, b, c))
}

// Section 6.2.2 step 3: the working variables after one round more.
fn one_round(v: [u32; 8], k: u32, w: u32) -> [u32; 8]
    ensures { result ≡ round k w v }
{
    let t1 = temporary1(v[4], v[5], v[6], v[7], k, w);
    let t2 = temporary2(v[0], v[1], v[2]);
    let a = t1.wrapping_add(t2);
    let e = v[3].wrapping_add(t1);
    [a, v[0], v[1], v[2], e, v[4], v[5], v[6]]
}

// Section 6.2.2 step 3: the working variables after the 64 rounds of a schedule, with the round constants lent.
pub fn all_rounds(k: &Constants, h: [u32; 8], w: &[u32; 64]) -> [u32; 8]
    ensures { result ≡ rounds (λ t. slice_index w.now t) h 64 }
{
    let mut v = h;
    for t in 0..64 {
        let next = one_round(v, k.words[t], w[t]);
        v = next;
    }
    v
}

// Section 6.2.2 step 4: the working variables added to the hash value, word by word.
pub fn add_words(v: [u32; 8], h: [u32; 8]) -> [u32; 8]
    ensures { result ≡ added v h }
{
    let mut next = h;
    for i in 0..8 {
        next[i] = v[i].wrapping_add(h[i]);
    }
    next
}
