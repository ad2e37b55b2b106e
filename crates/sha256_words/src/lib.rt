// FIPS 180-4 sections 3.2 and 4.1.2: a rotation, and the six functions on words.
#![tactic(auto)]

ghost use Rattle.std.specs.Prelude.{◌≡◌, ◌<◌};
ghost use Rattle.sha256_words.specs.Words.{ROTR, Ch, Maj, Σ₀, Σ₁, σ₀, σ₁};

// ROTR: the word with its low n bits at the top.
pub fn rotate_right(x: u32, n: u32) -> u32
    requires { (0 < n) × (n < 32) }
    ensures { result ≡ ROTR n x }
{
    x.rotate_right(n)
}

// Ch: each bit of y where x has a one, of z where it has a zero.
pub fn choice(x: u32, y: u32, z: u32) -> u32
    ensures { result ≡ Ch x y z }
{
    (x & y) ^ (!x & z)
}

// Maj: each bit as most of the three have it.
pub fn majority(x: u32, y: u32, z: u32) -> u32
    ensures { result ≡ Maj x y z }
{
    (x & y) ^ (x & z) ^ (y & z)
}

// Σ0, of the rounds.
// Kept: Σ0, Σ1, σ0 and σ1 stay four: each body is the paper's own equation, and one with distances as parameters adds three bounds.
pub fn big_sigma0(x: u32) -> u32
    ensures { result ≡ Σ₀ x }
{
    rotate_right(x, 2) ^ rotate_right(x, 13) ^ rotate_right(x, 22)
}

// Σ1, of the rounds.
pub fn big_sigma1(x: u32) -> u32
    ensures { result ≡ Σ₁ x }
{
    rotate_right(x, 6) ^ rotate_right(x, 11) ^ rotate_right(x, 25)
}

// σ0, of the message schedule.
pub fn small_sigma0(x: u32) -> u32
    ensures { result ≡ σ₀ x }
{
    rotate_right(x, 7) ^ rotate_right(x, 18) ^ (x >> 3)
}

// σ1, of the message schedule.
pub fn small_sigma1(x: u32) -> u32
    ensures { result ≡ σ₁ x }
{
    rotate_right(x, 17) ^ rotate_right(x, 19) ^ (x >> 10)
}
