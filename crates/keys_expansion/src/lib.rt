// RFC 9001 section 5.1: a sender's keys, from its secret.
#![tactic(auto)]

ghost use Rattle.std.specs.Prelude.{◌≡◌, ◌≤◌, length};
ghost use Rattle.hkdf.specs.Hkdf.{expand_label};
ghost use Rattle.versions.specs.Versions as Versions;
ghost use Rattle.protection.specs.KeyRecord.{keys_of};
ghost use Rattle.keys_expansion.specs.Expansion.{label_of, keys_from};

use protection::Keys;

// What is expanded from a sender's secret.
#[derive(Clone, Copy, Debug, PartialEq, Eq)]
pub enum Part {
    Key,
    Iv,
    Hp,
}

// The label of a part in a version: section 5.1's, or the draft's.
fn label_of(number: u32, part: Part) -> &'static [u8]
    ensures { (length result.now ≤ 10) × (result.now ≡ label_of part (Versions.version number)) }
{
    if number == versions::VERSION_1 {
        match part {
            Part::Key => b"quic key",
            Part::Iv => b"quic iv",
            Part::Hp => b"quic hp",
        }
    } else {
        match part {
            Part::Key => b"quicv2 key",
            Part::Iv => b"quicv2 iv",
            Part::Hp => b"quicv2 hp",
        }
    }
}

// One part of a sender's keys, by its label in the version.
fn expand_part(number: u32, part: Part, secret: &[u8; 32], out: &mut [u8])
    requires { length out.old ≤ 32 }
    ensures { out.new ≡ expand_label secret.now (label_of part (Versions.version number)) (length out.old) }
{
    hkdf::expand_label(secret, label_of(number, part), out);
}

// A sender's keys of a level, from its secret there.
pub fn keys_from(number: u32, level: u8, secret: &[u8; 32]) -> Keys
    ensures { keys_of result ≡ keys_from number level secret.now }
{
    let mut key = [0u8; 16];
    expand_part(number, Part::Key, secret, &mut key);
    let mut iv = [0u8; 12];
    expand_part(number, Part::Iv, secret, &mut iv);
    let mut hp = [0u8; 16];
    expand_part(number, Part::Hp, secret, &mut hp);
    Keys {
        version: number,
        level,
        key,
        iv,
        hp,
    }
}
