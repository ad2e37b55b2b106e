// SHA-256, by FIPS 180-4: the hash of a message, at once or on from a hash value after whole blocks. The round constants are lent,
// for a constant table is copied wherever it is used: a caller makes them once for all that it hashes.
#![tactic(auto)]

ghost use Rattle.std.specs.Prelude.{◌≡◌, ◌++◌, ◌+◌, ◌*◌, ◌%◌, ◌^◌, ◌<◌, length};
ghost use Rattle.sha256_padding.specs.Padding.{padding};
ghost use Rattle.sha256.specs.Sha256.{compressed, absorbed, digest, finished, hash};

use sha256_constants::{Constants, initial};
use sha256_padding::pad;
use sha256_rounds::{add_words, all_rounds};
use sha256_schedule::{parse, schedule};

// Section 6.2.2: the hash value after one block more.
// Kept: `k` and `h` are no one struct, for hmac goes on from two hash values under constants that are lent once.
pub fn compress(k: &Constants, h: [u32; 8], block: &[u8]) -> [u32; 8]
    requires { length block.now ≡ 64 }
    ensures { result ≡ compressed h block.now }
{
    let w = schedule(parse(block));
    add_words(all_rounds(k, h, &w), h)
}

// The hash value after the whole blocks of a message.
fn absorb(k: &Constants, h: [u32; 8], message: &[u8]) -> [u32; 8]
    ensures { result ≡ absorbed h message.now }
{
    let mut value = h;
    for block in message.chunks_exact(64) {
        let next = compress(k, value, block);
        value = next;
    }
    value
}

// The eight words of a hash value as bytes.
fn digest_bytes(h: [u32; 8]) -> [u8; 32]
    ensures { result ≡ digest h }
{
    let mut bytes = [0u8; 32];
    for i in 0..8 {
        octets::store(&mut bytes, 4 * i, 4, h[i] as u64);
    }
    bytes
}

// Section 5.1.1: the hash value after the tail of a message of so many bytes, padded.
fn close(k: &Constants, h: [u32; 8], tail: &[u8], total: u64) -> [u32; 8]
    requires { (length tail.now < 64) × (total % 64 ≡ length tail.now) × (8 * total < 2 ^ 64) }
    ensures { result ≡ absorbed h (tail.now ++ padding total) }
{
    let mut last = [0u8; 128];
    let end = pad(&mut last, tail, total);
    absorb(k, h, &last[..end])
}

// The hash, on from a hash value after so many bytes in whole blocks, where the rest is left.
pub fn finish(k: &Constants, h: [u32; 8], earlier: u64, rest: &[u8]) -> [u8; 32]
    requires { (earlier % 64 ≡ 0) × (8 * (earlier + length rest.now) < 2 ^ 64) }
    ensures { result ≡ finished h earlier rest.now }
{
    let whole = rest.len() / 64 * 64;
    let total = earlier + rest.len() as u64;
    let value = close(k, absorb(k, h, rest), &rest[whole..], total);
    digest_bytes(value)
}

// Section 6.2: SHA-256 of a message.
pub fn hash(k: &Constants, message: &[u8]) -> [u8; 32]
    requires { 8 * length message.now < 2 ^ 64 }
    ensures { result ≡ hash message.now }
{
    finish(k, initial(), 0, message)
}
