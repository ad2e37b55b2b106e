// HMAC with SHA-256, by RFC 2104.
#![tactic(auto)]

ghost use Rattle.std.specs.Prelude.{◌≡◌, ◌++◌, ◌+◌, ◌*◌, ◌^◌, ◌≤◌, ◌<◌, length};
ghost use Rattle.sha256.specs.Sha256.{hash};
ghost use Rattle.hmac.specs.Hmac.{keyed, ipad, opad, hmac};

use sha256_constants::Constants;

// RFC 2104 section 2: the bytes of a block of the hash.
const BLOCK: usize = 64;

// RFC 2104 section 2: the bytes that pad the inner and the outer key.
const INNER_PAD: u8 = 0x36;

const OUTER_PAD: u8 = 0x5c;

// RFC 2104 section 2: a key as a block, combined with a pad byte repeated.
fn keyed_block(key: &[u8], pad: u8) -> [u8; 64]
    requires { length key.now ≤ 64 }
    ensures { result ≡ keyed key.now pad }
{
    let pads = [pad; 64];
    let mut block = [pad; 64];
    octets::copy_masked(&mut block, 0, key, &pads);
    block
}

// RFC 2104 section 2: the hash of a keyed block and a text behind it.
fn keyed_hash(k: &Constants, key: &[u8], pad: u8, text: &[u8]) -> [u8; 32]
    requires { (length key.now ≤ 64) × (8 * (64 + length text.now) < 2 ^ 64) }
    ensures { result ≡ hash (keyed key.now pad ++ text.now) }
{
    let block = keyed_block(key, pad);
    let value = sha256::compress(k, sha256_constants::initial(), &block);
    sha256::finish(k, value, 64, text)
}

// RFC 2104 section 2: the two hashes of a text, one within the other, under a key of up to a block.
fn nested(k: &Constants, key: &[u8], text: &[u8]) -> [u8; 32]
    requires { (length key.now ≤ 64) × (8 * (64 + length text.now) < 2 ^ 64) }
    ensures { result ≡ hash (keyed key.now opad ++ hash (keyed key.now ipad ++ text.now)) }
{
    let inner = keyed_hash(k, key, INNER_PAD, text);
    keyed_hash(k, key, OUTER_PAD, &inner)
}

// RFC 2104: HMAC of a text. A key longer than a block is hashed first.
// Kept: the bounds on a text, and on a key in the three functions above, are no type: callers lend plain slices, and a struct round one
// would ask for the bound where it is built.
pub fn hmac(key: &[u8], text: &[u8]) -> [u8; 32]
    requires { (8 * length key.now < 2 ^ 64) × (8 * (64 + length text.now) < 2 ^ 64) }
    ensures { result ≡ hmac key.now text.now }
{
    let k = sha256_constants::round_constants();
    if BLOCK < key.len() {
        let hashed = sha256::hash(&k, key);
        return nested(&k, &hashed, text);
    }
    nested(&k, key, text)
}
