// The inner parts of the library as C functions, so that `make bench` can time each alone. No part of the product.
#![tactic(auto)]

pub mod by_bits;

ghost use Rattle.std.specs.Prelude.{◌≡◌, ◌/◌, length};
ghost use Rattle.octets.specs.Octets.{bytes, number, placed};
ghost use Rattle.aes_schedule.specs.Expansion.{expansion};
ghost use Rattle.aes_byte_rounds.specs.Cipher.{encrypted};
ghost use Rattle.gcm_hash.specs.Hash.{ghash};
ghost use Rattle.measured.specs.Measured.{enciphered, streaming, sealing, answer};

use aes_word_rounds::Tables;
use gcm_hash::Ghash;

// The most bytes that a text or its associated data may have here.
const MOST: usize = 65536;

// The key schedule of a key (FIPS 197 section 5.2).
#[unsafe(no_mangle)]
pub extern "C" fn dw_measure_expand_key(key: &[u8; 16], schedule: &mut [u8; 176])
    ensures { schedule.new ≡ expansion key.now }
{
    *schedule = aes_schedule::expand_key(key);
}

// A block under a key schedule, by the engine on words or by the one on bytes.
// Kept: the C interface, `words` of dw_measure_blocks, says which; a closure for each engine would need the choice as well.
fn encrypt_by(words: bool, tables: &Tables, schedule: &[u8; 176], block: &[u8; 16]) -> [u8; 16]
    ensures { result ≡ encrypted schedule.now block.now }
{
    if words {
        return tables.encrypt(schedule, block);
    }
    aes_byte_rounds::encrypt_with(&tables.sbox, schedule, block)
}

// Every whole block of a buffer, enciphered where it stands: on words, or on bytes where `words` is 0.
#[unsafe(no_mangle)]
pub extern "C" fn dw_measure_blocks(words: u32, schedule: &[u8; 176], buffer: &mut [u8])
    ensures { buffer.new ≡ enciphered schedule.now (length buffer.old / 16) buffer.old }
{
    let tables = Tables::new();
    for k in 0..buffer.len() / 16 {
        let at = 16 * k;
        let mut block = [0u8; 16];
        octets::copy(&mut block, 0, &buffer[at..at + 16]);
        let cipher = encrypt_by(words != 0, &tables, schedule, &block);
        octets::copy(buffer, at, &cipher);
    }
}

// A text in counter mode at the start of `out`. 1, or 0 where it does not fit.
#[unsafe(no_mangle)]
pub extern "C" fn dw_measure_counter(
    schedule: &[u8; 176],
    nonce: &[u8; 12],
    text: &[u8],
    out: &mut [u8],
) -> u32
    ensures answered { result ≡ answer (streaming schedule.now nonce.now text.now (length out.old)) }
    ensures laid { out.new ≡ placed (streaming schedule.now nonce.now text.now (length out.old)) out.old }
{
    if out.len() < text.len() {
        return 0;
    }
    gcm_counter::crypt(schedule, nonce, text, out, 0);
    1
}

// GHASH of the whole blocks of some bytes, by the table of the hash key, which is made afresh.
#[unsafe(no_mangle)]
pub extern "C" fn dw_measure_ghash(key: &[u8; 16], source: &[u8], out: &mut [u8; 16])
    ensures { out.new ≡ bytes 16 (ghash (number key.now) source.now) }
{
    let table = gcm_table::make_table(gcm_hash::load_block(key, 0));
    let whole = source.len() / 16 * 16;
    let g = Ghash::begin().absorb(&table, &source[..whole]);
    *out = gcm::spelled(g.y);
}

// The same, bit by bit.
#[unsafe(no_mangle)]
pub extern "C" fn dw_measure_ghash_by_bits(key: &[u8; 16], source: &[u8], out: &mut [u8; 16])
    ensures { out.new ≡ bytes 16 (ghash (number key.now) source.now) }
{
    *out = gcm::spelled(by_bits::hash(gcm_hash::load_block(key, 0), source));
}

// GCM under a key schedule: cipher and tag at the start of `out`. 1, or 0 where they do not fit or there is too much to read.
#[unsafe(no_mangle)]
pub extern "C" fn dw_measure_gcm(
    schedule: &[u8; 176],
    nonce: &[u8; 12],
    associated: &[u8],
    text: &[u8],
    out: &mut [u8],
) -> u32
    ensures answered { result ≡ answer (sealing schedule.now nonce.now associated.now text.now (length out.old)) }
    ensures laid { out.new ≡ placed (sealing schedule.now nonce.now associated.now text.now (length out.old)) out.old }
{
    if associated.len() > MOST {
        return 0;
    }
    if text.len() > MOST {
        return 0;
    }
    let end = text.len();
    if out.len() < end + 16 {
        return 0;
    }
    gcm_counter::crypt(schedule, nonce, text, out, 0);
    let key = gcm::hash_key(schedule);
    let tag = gcm::make_tag(schedule, key, nonce, associated, &[], &[], &out[0..end]);
    octets::copy(out, end, &tag);
    1
}
