// Opening, RFC 9001 section 5.3: a packet whose tag is right, written out, and what is said of it.
#![tactic(auto)]

ghost use Rattle.std.specs.Prelude.{◌+◌, ◌≤◌, length};
ghost use Rattle.open_writing.specs.Written.{Writes};

use header_fields::TAG_LENGTH;
use numbers::FullPn;
use open_unmasking::located::Located;

// What was opened: the full number and its length, the header's length with the number in it, the payload's length, and how many of
// the datagram's bytes the packet took.
#[derive(Clone, Copy, Debug, PartialEq, Eq)]
pub struct Opened {
    pub number: FullPn,
    pub number_length: usize,
    pub header_length: usize,
    pub payload_length: usize,
    pub used: usize,
}

// The plain header at the buffer's start, and the payload behind it; what was opened so.
// Kept: schedule and nonce are two, as in gcm, where the reason stands (`make_tag`).
pub fn write_opened(
    schedule: &[u8; 176],
    nonce: &[u8; 12],
    found: Located,
    buffer: &mut [u8],
) -> Opened
    requires { found.packet.place + found.packet.length ≤ length buffer.old + 16 }
    ensures { Writes schedule.now nonce.now found.entry.datagram.now found.entry.packet buffer.old buffer.new result }
{
    let Located { datagram, packet } = found;
    let place = packet.place;
    let count = packet.count;
    let start = place + count;
    let used = place + packet.length;
    let end = used - TAG_LENGTH;
    octets::put(buffer, 0, packet.first);
    octets::copy(buffer, 1, &datagram[1..place]);
    octets::store(buffer, place, count, packet.truncated.0);
    gcm_counter::crypt(schedule, nonce, &datagram[start..end], buffer, start);
    Opened {
        number: packet.number,
        number_length: count,
        header_length: start,
        payload_length: end - start,
        used,
    }
}
