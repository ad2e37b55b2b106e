// A packet that was found, and the datagram in which it lies.
ghost use Rattle.open_unmasking.specs.Parts.{Within};

use crate::Packet;

// The packet lies whole in the datagram.
#[derive(Clone, Copy)]
pub struct Located<'a> {
    pub datagram: &'a [u8],
    pub packet: Packet,
    pub ghost within: { Within datagram.now packet },
}
