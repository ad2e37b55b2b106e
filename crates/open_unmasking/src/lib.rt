// Opening, RFC 9001 section 5.4: the mask taken off, and what a packet is without it.
#![tactic(auto)]

ghost use Rattle.std.specs.Prelude.{◌+◌, ◌≤◌, length};
ghost use Rattle.header_forms.specs.Answers.{form_of};
ghost use Rattle.protection.specs.KeyRecord.{keys_of};
ghost use Rattle.open_unmasking.specs.Unmasking.{Spells, Unmasks};

pub mod located;

use header_forms::{Form, mask_first};
use numbers::{FullPn, TruncatedPn};
use protection::Keys;

// Without the mask: the first byte, and the short number with the count of its bytes.
#[derive(Clone, Copy, Debug, PartialEq, Eq)]
pub struct Bare {
    pub first: u8,
    pub count: usize,
    pub truncated: TruncatedPn,
}

// A packet whose tag is still to be judged: without the mask, its first byte, its number as it stands there in `count` bytes and
// the full one; where it stands, and how many bytes the packet has from there on.
#[derive(Clone, Copy, Debug, PartialEq, Eq)]
pub struct Packet {
    pub first: u8,
    pub count: usize,
    pub truncated: TruncatedPn,
    pub number: FullPn,
    pub place: usize,
    pub length: usize,
}

// A short number, from its bytes.
fn read_short(short: &[u8]) -> TruncatedPn
    requires { length short.now ≤ 4 }
    ensures { Spells short.now result.0 }
{
    TruncatedPn(octets::load(short))
}

// Section 5.4.1: the mask taken from the first byte and from the number that stands at a place.
pub fn unmask(form: Form, keys: Keys, datagram: &[u8], place: usize) -> Bare
    requires { place + 20 ≤ length datagram.now }
    ensures { Unmasks (form_of form) (keys_of keys) datagram.now place result }
{
    let mask = protection::mask_of(&keys.hp, datagram, place);
    let first = mask_first(form, mask[0], datagram[0]);
    let count = (first % 4 + 1) as usize;
    let end = place + count;
    let mut short = [0u8; 4];
    octets::copy_masked(&mut short, 0, &datagram[place..end], &mask[1..]);
    Bare {
        first,
        count,
        truncated: read_short(&short[..count]),
    }
}
