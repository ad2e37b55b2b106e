// RFC 9001 section 5 for C: a packet sealed with a key record.
#![tactic(auto)]

ghost use Rattle.std.specs.Prelude.{◌≡◌, [], ◌∷◌};
ghost use Rattle.header_writing.specs.Answers.{plain_of};
ghost use Rattle.header_writing.specs.Written.{holding, absent};
ghost use Rattle.c_seal.specs.Promises.{DwSeal};

use c_forms::acknowledged_by;
use c_key_record::{KeyRecord, load_keys};
use header_writing::Plain;
use numbers::FullPn;

// Seals a packet with a long header at the output's start, and reports its length.
fn seal_plain(
    keys: &KeyRecord,
    any_acknowledged: u32,
    acknowledged: u64,
    plain: Plain,
    out: &mut [u8],
    report: &mut [u64; 1],
) -> u32
    ensures { DwSeal keys.now any_acknowledged acknowledged (plain_of plain.entry) report.old result report.new out.old out.new }
{
    let acknowledged = acknowledged_by(any_acknowledged, acknowledged);
    let sealed = seal::seal(load_keys(*keys), acknowledged, plain, out);
    let numbers = sealed.map(
        |size|
            ensures { result ≡ size ∷ [] }
        { [size as u64] },
    );
    c_forms::report(numbers, report)
}

// Seals an Initial packet at the output's start, and reports its length.
// Kept: the parameters of the function for C, here and below: docs/CONTRACTS.md says that each is one call with the same contract.
pub fn seal(
    keys: &KeyRecord,
    number: u64,
    any_acknowledged: u32,
    acknowledged: u64,
    length: usize,
    destination: &[u8],
    source: &[u8],
    token: &[u8],
    payload: &[u8],
    out: &mut [u8],
    report: &mut [u64; 1],
) -> u32
    ensures { DwSeal keys.now any_acknowledged acknowledged (record { destination = destination.now; source = source.now; token = holding token.now; payload = payload.now; packet_number = number; number_length = length }) report.old result report.new out.old out.new }
{
    let plain = Plain {
        number: FullPn(number),
        number_length: length,
        destination,
        source,
        token: Some(token),
        payload,
    };
    seal_plain(keys, any_acknowledged, acknowledged, plain, out, report)
}

// Seals a 0-RTT or Handshake packet, by the level of the keys, likewise. The lifetime is named because the check doesn't cover a struct with
// one lifetime for several of a signature.
pub fn seal_long<'a>(
    keys: &KeyRecord,
    number: u64,
    any_acknowledged: u32,
    acknowledged: u64,
    length: usize,
    destination: &'a [u8],
    source: &'a [u8],
    payload: &'a [u8],
    out: &mut [u8],
    report: &mut [u64; 1],
) -> u32
    ensures { DwSeal keys.now any_acknowledged acknowledged (record { destination = destination.now; source = source.now; token = absent; payload = payload.now; packet_number = number; number_length = length }) report.old result report.new out.old out.new }
{
    let plain = Plain {
        number: FullPn(number),
        number_length: length,
        destination,
        source,
        token: None,
        payload,
    };
    seal_plain(keys, any_acknowledged, acknowledged, plain, out, report)
}
