// A key record as C holds it, in 49 bytes: the version in four, the level in one, then key, iv and hp.
#![tactic(auto)]

ghost use Rattle.std.specs.Prelude.{◌≡◌};
ghost use Rattle.protection.specs.KeyRecord.{keys_of};
ghost use Rattle.c_key_record.specs.Layout.{key_bytes, keys_in};

use protection::Keys;

// The bytes of a record.
// Kept: no From: the language has it beside one of the two types, and `Keys` would then know how C lays it out. A function here is plainer.
pub type KeyRecord = [u8; 49];

// The keys that a record holds.
pub fn load_keys(bytes: KeyRecord) -> Keys
    ensures { keys_of result ≡ keys_in bytes }
{
    let mut key = [0u8; 16];
    key.copy_from_slice(&bytes[5..21]);
    let mut iv = [0u8; 12];
    iv.copy_from_slice(&bytes[21..33]);
    let mut hp = [0u8; 16];
    hp.copy_from_slice(&bytes[33..49]);
    Keys {
        version: octets::word(&bytes, 0),
        level: bytes[4],
        key,
        iv,
        hp,
    }
}

// The record of keys.
pub fn key_bytes(keys: Keys) -> KeyRecord
    ensures { result ≡ key_bytes (keys_of keys) }
{
    let mut bytes = [0u8; 49];
    octets::store(&mut bytes, 0, 4, keys.version as u64);
    bytes[4] = keys.level;
    octets::copy(&mut bytes, 5, &keys.key);
    octets::copy(&mut bytes, 21, &keys.iv);
    octets::copy(&mut bytes, 33, &keys.hp);
    bytes
}
