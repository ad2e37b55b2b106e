// FIPS 180-4, RFC 2104, RFC 5869 and RFC 8446 section 7.1: the hash, HMAC, HKDF and labels.
ghost use Rattle.std.specs.Prelude.{◌≤◌, length};
ghost use Rattle.terminal.specs.Pages.{FailureStays};

use crate::{fields, print};
use terminal::Page;

// sha256 MESSAGE
pub fn sha256(page: &mut Page, line: &[u8])
    ensures { FailureStays page.old page.new }
{
    let mut message = [0u8; 4096];
    let k = sha256_constants::round_constants();
    print::bytes(
        page,
        &sha256::hash(&k, fields::bytes(line, 1, &mut message)),
    );
}

// The hash of a block so many times.
fn repeated(block: &[u8; 64], count: u32) -> [u8; 32] {
    let k = sha256_constants::round_constants();
    let mut value = sha256_constants::initial();
    for _ in 0..count {
        let next = sha256::compress(&k, value, block);
        value = next;
    }
    sha256::finish(&k, value, count as u64 * 64, b"")
}

// sha256-blocks BLOCK COUNT
pub fn sha256_blocks(page: &mut Page, line: &[u8])
    ensures { FailureStays page.old page.new }
{
    let count = console::fields::number(line, 2) % 0x100000000;
    print::bytes(page, &repeated(&fields::array(line, 1), count as u32));
}

// hmac KEY TEXT
pub fn hmac(page: &mut Page, line: &[u8])
    ensures { FailureStays page.old page.new }
{
    let mut key = [0u8; 4096];
    let mut text = [0u8; 4096];
    let code = hmac::hmac(
        fields::bytes(line, 1, &mut key),
        fields::bytes(line, 2, &mut text),
    );
    print::bytes(page, &code);
}

// extract SALT IKM
pub fn extract(page: &mut Page, line: &[u8])
    ensures { FailureStays page.old page.new }
{
    let mut salt = [0u8; 4096];
    let mut ikm = [0u8; 4096];
    let key = hkdf::extract(
        fields::bytes(line, 1, &mut salt),
        fields::bytes(line, 2, &mut ikm),
    );
    print::bytes(page, &key);
}

// expand PRK INFO, to 32 bytes
pub fn expand(page: &mut Page, line: &[u8])
    ensures { FailureStays page.old page.new }
{
    let mut info = [0u8; 255];
    let prk = fields::array(line, 1);
    print::bytes(page, &hkdf::expand(&prk, fields::bytes(line, 2, &mut info)));
}

// As many bytes of a label's expansion as are lent.
fn labelled(page: &mut Page, secret: &[u8; 32], label: &[u8], out: &mut [u8])
    requires { (length label.now ≤ 249) × (length out.old ≤ 32) }
    ensures { FailureStays page.old page.new }
{
    hkdf::expand_label(secret, label, out);
    print::bytes(page, out);
}

// expand-label SECRET LABEL LENGTH
pub fn expand_label(page: &mut Page, line: &[u8])
    ensures { FailureStays page.old page.new }
{
    let secret = fields::array(line, 1);
    let mut label = [0u8; 249];
    let mut out = [0u8; 32];
    labelled(
        page,
        &secret,
        fields::bytes(line, 2, &mut label),
        fields::within(line, 3, &mut out),
    );
}
