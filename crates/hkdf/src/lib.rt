// HKDF and the labels of TLS 1.3 with SHA-256, by RFC 5869 and RFC 8446 section 7.1.
#![tactic(auto)]

ghost use Rattle.std.specs.Prelude.{◌≡◌, ◌+◌, ◌*◌, ◌^◌, ◌≤◌, ◌<◌, length};
ghost use Rattle.octets.specs.Octets.{begun};
ghost use Rattle.hkdf.specs.Hkdf.{extract, T, info, expand_label};

use hmac::hmac;

// RFC 5869 section 2.2: the pseudorandom key of a salt and input keying material.
pub fn extract(salt: &[u8], ikm: &[u8]) -> [u8; 32]
    requires { (8 * length salt.now < 2 ^ 64) × (8 * (64 + length ikm.now) < 2 ^ 64) }
    ensures { result ≡ extract salt.now ikm.now }
{
    hmac(salt, ikm)
}

// RFC 5869 section 2.3: T(1), of which up to 32 bytes are taken.
pub fn expand(prk: &[u8; 32], info: &[u8]) -> [u8; 32]
    requires { length info.now ≤ 259 }
    ensures { result ≡ T prk.now info.now 1 }
{
    let mut text = [0u8; 260];
    let last = info.len();
    let end = last + 1;
    octets::copy(&mut text, 0, info);
    octets::store(&mut text, last, 1, 1);
    hmac(prk, &text[..end])
}

// RFC 8446 section 7.1: the info of a label and a length, put at a buffer's start.
fn write_info(buffer: &mut [u8], label: &[u8], size: u64)
    requires { length label.now + 10 ≤ length buffer.old }
    ensures { buffer.new ≡ begun (info label.now size) buffer.old }
{
    let whole = 6 + label.len();
    octets::store(buffer, 0, 2, size);
    octets::store(buffer, 2, 1, whole as u64);
    octets::copy(buffer, 3, b"tls13 ");
    octets::copy(buffer, 9, label);
    octets::store(buffer, 3 + whole, 1, 0);
}

// RFC 8446 section 7.1: HKDF-Expand-Label, as many bytes as are lent, up to 32.
pub fn expand_label(secret: &[u8; 32], label: &[u8], out: &mut [u8])
    requires { (length label.now ≤ 249) × (length out.old ≤ 32) }
    ensures { out.new ≡ expand_label secret.now label.now (length out.old) }
{
    let mut info = [0u8; 259];
    let end = label.len() + 10;
    let size = out.len();
    write_info(&mut info, label, size as u64);
    let block = expand(secret, &info[..end]);
    out.copy_from_slice(&block[..size]);
}
