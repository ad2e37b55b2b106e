// Sealing: RFC 9001 section 5, as docs/SCOPE.md, "Protection", has it.
#![tactic(auto)]

ghost use Rattle.std.specs.Prelude.{◌≡◌, length};
ghost use Rattle.octets.specs.Octets.{begun};
ghost use Rattle.header_forms.specs.Rules.{in_force};
ghost use Rattle.numbers_shortening.specs.Answers.{acknowledged_of};
ghost use Rattle.protection.specs.KeyRecord.{keys_of};
ghost use Rattle.header_writing.specs.Answers.{plain_of};
ghost use Rattle.packets.specs.Packet.{packet_of};
ghost use Rattle.packets.specs.Sealable.{Writable};
ghost use Rattle.protection.specs.AesGcm.{aes_gcm};
ghost use Rattle.seal.specs.Sealing.{Seal};

use header_forms::Form;
use header_writing::Plain;
use numbers::FullPn;
use octets::refusal::Refusal;
use protection::Keys;
use seal_header::write_header;
use seal_judging::judge;
use seal_protecting::protect_packet;

// Sections 5.3 and 5.4: the packet with its header, protected, at the buffer's start.
fn write_packet(keys: Keys, plain: Plain, buffer: &mut [u8])
    requires { Writable (plain_of plain) (length buffer.old) }
    ensures { buffer.new ≡ begun (packet_of aes_gcm in_force (keys_of keys) (plain_of plain.entry)) buffer.old }
{
    let place = write_header(keys.version, keys.level, plain, buffer);
    protect_packet(Form::Long, keys, plain, place, buffer);
}

// A packet with a long header sealed at the buffer's start: an Initial, which has a field for a token, or a 0-RTT or Handshake packet, which
// has none. The answer is its length, and the bytes behind it stay.
#[tactic(auto, using(crate::proofs::Answers::refuse, crate::proofs::Answers::writable, crate::proofs::Answers::written))]
pub fn seal(
    keys: Keys,
    acknowledged: Option<FullPn>,
    plain: Plain,
    out: &mut [u8],
) -> Result<usize, Refusal>
    ensures { Seal (keys_of keys) (acknowledged_of acknowledged) (plain_of plain.entry) out.old result out.new }
{
    let size = judge(keys, acknowledged, plain, out.len())?;
    write_packet(keys, plain, out);
    Ok(size)
}
