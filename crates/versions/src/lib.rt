// RFC 9000 sections 15 and 17.2 and docs/SCOPE.md, "Constants": the versions, and all that differs between them but the labels.
#![tactic(auto)]

ghost use Rattle.std.specs.Prelude.{◌≡◌, cond, eqb};
ghost use Rattle.versions.specs.Versions as Constants;
ghost use Rattle.versions.specs.Versions.{known, type_for, level_of};
ghost use Rattle.versions.specs.Answers.{level_answer};

use octets::refusal::Refusal;

pub mod level;

// RFC 9000 section 15: version 1.
pub const VERSION_1: u32 = 0x00000001;

// The version 2 draft.
pub const DRAFT_2: u32 = 0x709a50c4;

// RFC 9001 section 5.2.
const SALT_1: [u8; 20] =
    *b"\x38\x76\x2c\xf7\xf5\x59\x34\xb3\x4d\x17\x9a\xe6\xa4\xc8\x0c\xad\xcc\xbb\x7f\x0a";

// The draft's salt.
const SALT_2: [u8; 20] =
    *b"\xa7\x07\xc2\x03\xa5\x9b\x47\x18\x4a\x1d\x62\xca\x57\x04\x06\xea\x7a\xe3\xe5\xd3";

// RFC 9001 section 5.8.
const RETRY_KEY_1: [u8; 16] = *b"\xbe\x0c\x69\x0b\x9f\x66\x57\x5a\x1d\x76\x6b\x54\xe3\x68\xc8\x4e";

// The draft's key for Retry.
const RETRY_KEY_2: [u8; 16] = *b"\xba\x85\x8d\xc7\xb4\x3d\xe5\xdb\xf8\x76\x17\xff\x4a\xb2\x53\xdb";

// RFC 9001 section 5.8.
const RETRY_NONCE_1: [u8; 12] = *b"\x46\x15\x99\xd3\x5d\x63\x2b\xf2\x23\x98\x25\xbb";

// The draft's nonce for Retry.
const RETRY_NONCE_2: [u8; 12] = *b"\x14\x1b\x99\xc2\x39\xb0\x3e\x78\x5d\x6a\x2e\x9f";

// Whether the version is one of the two.
pub fn is_known(version: u32) -> bool
    ensures { result ≡ known version }
{
    if version == VERSION_1 {
        return true;
    }
    version == DRAFT_2
}

// What version 1 has, or the draft.
fn by_version<T: Copy>(version: u32, first: T, draft: T) -> T
    ensures { result ≡ cond (eqb version VERSION_1) first draft }
{
    if version == VERSION_1 { first } else { draft }
}

// The packet type that says Initial.
fn initial_type(version: u32) -> u8
    ensures { result ≡ (Constants.version version).initial_type }
{
    by_version(version, 0, 1)
}

// The packet type that says 0-RTT.
fn zero_rtt_type(version: u32) -> u8
    ensures { result ≡ (Constants.version version).zero_rtt_type }
{
    by_version(version, 1, 2)
}

// The packet type that says Handshake.
fn handshake_type(version: u32) -> u8
    ensures { result ≡ (Constants.version version).handshake_type }
{
    by_version(version, 2, 3)
}

// The packet type that a version writes for a level with a long header.
pub fn type_for(version: u32, level: u8) -> u8
    ensures { result ≡ type_for (Constants.version version) level }
{
    if level == level::INITIAL {
        return initial_type(version);
    }
    if level == level::ZERO_RTT {
        return zero_rtt_type(version);
    }
    handshake_type(version)
}

// The level that a packet type is of; Retry is of none.
pub fn level_of(version: u32, kind: u8) -> Result<u8, Refusal>
    ensures { level_answer result ≡ level_of (Constants.version version) kind }
{
    if kind == type_for(version, level::INITIAL) {
        return Ok(level::INITIAL);
    }
    if kind == type_for(version, level::ZERO_RTT) {
        return Ok(level::ZERO_RTT);
    }
    if kind == type_for(version, level::HANDSHAKE) {
        return Ok(level::HANDSHAKE);
    }
    Err(Refusal::Type)
}

// The packet type that says Retry.
pub fn retry_type(version: u32) -> u8
    ensures { result ≡ (Constants.version version).retry_type }
{
    by_version(version, 3, 0)
}

// The salt of the initial secret.
pub fn salt(version: u32) -> [u8; 20]
    ensures { result ≡ (Constants.version version).salt }
{
    by_version(version, SALT_1, SALT_2)
}

// The key of the Retry tag.
pub fn retry_key(version: u32) -> [u8; 16]
    ensures { result ≡ (Constants.version version).retry_key }
{
    by_version(version, RETRY_KEY_1, RETRY_KEY_2)
}

// The nonce of the Retry tag.
pub fn retry_nonce(version: u32) -> [u8; 12]
    ensures { result ≡ (Constants.version version).retry_nonce }
{
    by_version(version, RETRY_NONCE_1, RETRY_NONCE_2)
}
