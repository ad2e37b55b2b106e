// Opening: RFC 9001 section 5, as docs/SCOPE.md, "Protection", has it.
#![tactic(auto)]

ghost use Rattle.protection.specs.KeyRecord.{keys_of};
ghost use Rattle.open.specs.Opening.{Open};

use octets::refusal::Refusal;
use open_decrypting::decrypt;
use open_judging::find;
use open_writing::Opened;
use protection::Keys;

// Section 5: the packet that begins a datagram, opened into a buffer, with the number expected then.
pub fn open(
    keys: Keys,
    expected: &mut u64,
    datagram: &[u8],
    out: &mut [u8],
) -> Result<Opened, Refusal>
    ensures { Open (keys_of keys) datagram.now expected.old expected.new out.old out.new result }
{
    let found = find(keys, *expected, datagram, out.len())?;
    decrypt(keys, found, expected, out)
}
