// Opening, RFC 9001 section 5.3 undone: a packet that was found, decrypted, for any form of header.
#![tactic(auto)]

ghost use Rattle.std.specs.Prelude.{◌≡◌, ◌+◌, ◌≤◌, ◌<◌, max, length};
ghost use Rattle.numbers.specs.Numbers.{numbers};
ghost use Rattle.protection.specs.KeyRecord.{keys_of};
ghost use Rattle.open_revealing.specs.Revealing.{tag_left};
ghost use Rattle.open_decrypting.specs.Decrypting.{Leaves};

use numbers::FullPn;
use octets::refusal::Refusal;
use open_tag::tag_matches;
use open_unmasking::located::Located;
use open_writing::{Opened, write_opened};
use protection::Keys;

// RFC 9000 appendix A.3: the larger of what was expected and one above the opened number.
fn expected_after(expected: u64, number: FullPn) -> u64
    requires { number.0 < numbers }
    ensures { result ≡ max expected (number.0 + 1) }
{
    u64::max(expected, number.0 + 1)
}

// The packet in a buffer, and the number expected then. Nothing is written before the tag is compared.
pub fn decrypt(
    keys: Keys,
    found: Located,
    expected: &mut u64,
    out: &mut [u8],
) -> Result<Opened, Refusal>
    requires { (found.packet.place + found.packet.length ≤ length out.old + 16) × (found.packet.number.0 < numbers) }
    ensures { Leaves (tag_left (keys_of keys) found.entry.datagram.now found.entry.packet) expected.old expected.new out.old out.new result }
{
    let schedule = aes_schedule::expand_key(&keys.key);
    let nonce = protection::nonce_of(&keys.iv, found.packet.number.0);
    if !tag_matches(&schedule, &nonce, found) {
        return Err(Refusal::Tag);
    }
    let opened = write_opened(&schedule, &nonce, found, out);
    *expected = expected_after(*expected, found.packet.number);
    Ok(opened)
}
