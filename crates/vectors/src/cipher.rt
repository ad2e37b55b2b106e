// FIPS 197 and SP 800-38D: the block cipher, its schedule and its S-box, and GCM; the mask of RFC 9001 section 5.4.3.
ghost use Rattle.std.specs.Prelude.{◌≤◌, length};
ghost use Rattle.terminal.specs.Pages.{FailureStays};

use crate::{fields, print};
use aes_engines::Both;
use terminal::Page;

// A block encrypted under a key, by both engines: KEY BLOCK.
fn encrypted(line: &[u8]) -> Both {
    aes_engines::encrypt(&fields::array(line, 1), &fields::array(line, 2))
}

// aes KEY BLOCK, on bytes
pub fn aes(page: &mut Page, line: &[u8])
    ensures { FailureStays page.old page.new }
{
    print::bytes(page, &encrypted(line).bytes);
}

// aes-words KEY BLOCK: the same by the engine on words, which the library uses
pub fn aes_words(page: &mut Page, line: &[u8])
    ensures { FailureStays page.old page.new }
{
    print::bytes(page, &encrypted(line).words);
}

// aes-mask KEY SAMPLE: the first five bytes alone
pub fn aes_mask(page: &mut Page, line: &[u8])
    ensures { FailureStays page.old page.new }
{
    let block = encrypted(line).words;
    print::bytes(page, &block[..5]);
}

// aes-schedule KEY
pub fn aes_schedule(page: &mut Page, line: &[u8])
    ensures { FailureStays page.old page.new }
{
    print::bytes(page, &aes_schedule::expand_key(&fields::array(line, 1)));
}

// aes-s-box
pub fn aes_s_box(page: &mut Page)
    ensures { FailureStays page.old page.new }
{
    print::bytes(page, &aes_s_box::table().bytes);
}

// The ciphertext of a plaintext, at the start of a buffer at least as long, and its tag; the associated data comes in three pieces.
fn seal(
    key: &[u8; 16],
    nonce: &[u8; 12],
    associated: &[u8],
    plain: &[u8],
    buffer: &mut [u8],
) -> [u8; 16]
    requires { (length associated.now ≤ 4096) × (length plain.now ≤ 4096) × (length plain.now ≤ length buffer.old) }
{
    let schedule = aes_schedule::expand_key(key);
    gcm_counter::crypt(&schedule, nonce, plain, buffer, 0);
    let h = gcm::hash_key(&schedule);
    let one = associated.len() / 3;
    let two = associated.len() / 2;
    gcm::make_tag(
        &schedule,
        h,
        nonce,
        &associated[..one],
        &associated[one..two],
        &associated[two..],
        &buffer[..plain.len()],
    )
}

// gcm KEY NONCE ASSOCIATED PLAIN
pub fn gcm(page: &mut Page, line: &[u8])
    ensures { FailureStays page.old page.new }
{
    let mut associated = [0u8; 4096];
    let mut plain = [0u8; 4096];
    let mut out = [0u8; 4096];
    let plain = fields::bytes(line, 4, &mut plain);
    let tag = seal(
        &fields::array(line, 1),
        &fields::array(line, 2),
        fields::bytes(line, 3, &mut associated),
        plain,
        &mut out,
    );
    page.say(b"sealed");
    print::part(page, b"cipher,tag", 0, &out[..plain.len()]);
    print::part(page, b"cipher,tag", 1, &tag);
    print::end(page);
}
