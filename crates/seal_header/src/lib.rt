// Sealing, RFC 9000 sections 17.2.2 to 17.2.4: the plain header with its number.
#![tactic(auto)]

ghost use Rattle.std.specs.Prelude.{length};
ghost use Rattle.header_writing.specs.Answers.{plain_of};
ghost use Rattle.packets.specs.Sealable.{Writable};
ghost use Rattle.seal_header.specs.HeaderWritten.{HeaderWritten};

use header_fields::TAG_LENGTH;
use header_writing::Plain;

// The plain header at the buffer's start; where its number stands.
pub fn write_header(version: u32, level: u8, plain: Plain, buffer: &mut [u8]) -> usize
    requires { Writable (plain_of plain) (length buffer.old) }
    ensures { HeaderWritten version level (plain_of plain.entry) buffer.old buffer.new result }
{
    let count = plain.number_length;
    let first = 0xc0 + versions::type_for(version, level) * 16 + (count - 1) as u8;
    let counted = count + plain.payload.len() + TAG_LENGTH;
    let place = header_writing::write_fields(buffer, first, version, plain, counted);
    octets::store(buffer, place, count, plain.number.0);
    place
}
