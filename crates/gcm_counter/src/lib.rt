// Counter mode (SP 800-38D sections 6.2 and 6.5), and the text under it (section 7.1, steps 2 and 3). Two blocks go at a time.
#![tactic(auto)]

ghost use Rattle.std.specs.Prelude.{◌≡◌, ◌+◌, ◌≤◌, ◌++◌, length};
ghost use Rattle.octets.specs.Octets.{bytes, laid};
ghost use Rattle.gcm_counter.specs.Counter.{j0 as first, key_stream, stream_by};

use aes_word_rounds::Tables;

// The counter block of a number: its last four bytes, behind the nonce.
fn counter_block(nonce: &[u8; 12], count: u32) -> [u8; 16]
    ensures { result ≡ nonce.now ++ bytes 4 count }
{
    let mut block = [0u8; 16];
    octets::copy(&mut block, 0, nonce);
    octets::store(&mut block, 12, 4, count as u64);
    block
}

// The block before the first counter block (section 7.1, step 2).
pub fn j0(nonce: &[u8; 12]) -> [u8; 16]
    ensures { result ≡ first nonce.now }
{
    counter_block(nonce, 1)
}

// Two blocks of the key stream (section 6.5), from a number on.
fn masks(tables: &Tables, schedule: &[u8; 176], nonce: &[u8; 12], count: u32) -> [u8; 32]
    ensures { result ≡ key_stream schedule.now 2 (nonce.now ++ bytes 4 count) }
{
    let one = counter_block(nonce, count);
    let two = counter_block(nonce, count.wrapping_add(1));
    tables.encrypt_two(schedule, &one, &two)
}

// The source in counter mode, laid over a buffer from `at` on (section 7.1, step 3): as well a plaintext's cipher as a cipher's plaintext.
pub fn crypt(schedule: &[u8; 176], nonce: &[u8; 12], source: &[u8], buffer: &mut [u8], at: usize)
    requires { at + length source.now ≤ length buffer.old }
    ensures { buffer.new ≡ laid buffer.old at (stream_by schedule.now nonce.now source.now) }
{
    let tables = Tables::new();
    let mut count: u32 = 2;
    for (k, piece) in source.chunks(32).enumerate() {
        let mask = masks(&tables, schedule, nonce, count);
        octets::copy_masked(buffer, at + 32 * k, piece, &mask);
        count = count.wrapping_add(2);
    }
}
