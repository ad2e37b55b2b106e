// Opening, RFC 9001 section 5.3: a packet's tag, compared.
#![tactic(auto)]

ghost use Rattle.open_tag.specs.Matching.{Matches};

use header_fields::TAG_LENGTH;
use open_unmasking::located::Located;

// Section 5.3: whether the packet's last sixteen bytes are the tag of its plain header, taken in pieces, and of its ciphertext.
// Kept: schedule and nonce are two, as in gcm, where the reason stands (`make_tag`).
pub fn tag_matches(schedule: &[u8; 176], nonce: &[u8; 12], found: Located) -> bool
    ensures { Matches schedule.now nonce.now found.entry.datagram.now found.entry.packet result }
{
    let Located { datagram, packet } = found;
    let place = packet.place;
    let count = packet.count;
    let first = [packet.first];
    let mut short = [0u8; 4];
    octets::store(&mut short, 0, count, packet.truncated.0);
    let start = place + count;
    let end = place + packet.length;
    let close = end - TAG_LENGTH;
    let key = gcm::hash_key(schedule);
    let tag = gcm::make_tag(
        schedule,
        key,
        nonce,
        &first,
        &datagram[1..place],
        &short[..count],
        &datagram[start..close],
    );
    gcm::same_tag(&datagram[close..end], &tag)
}
