// The library for C: each entry point on numbers and lent bytes. It answers 0 or the refusal's number, and reports only with 0.
// To C a slice is a pointer and a length, and a reference a pointer alone (include/driftwicket.h). An archive exports the functions
// of its own crate alone: each is one call to the room of its family.
// Kept: parameters as C hands them over, here and in the rooms that have them too, for the header fixes each.
#![tactic(auto)]

ghost use Rattle.header_writing.specs.Written.{holding, absent};
ghost use Rattle.c_numbers.specs.Promises.{DwReadInteger, DwSmallestLength, DwShorten, DwRecover};
ghost use Rattle.c_keys.specs.Promises.{DwInitialKeys, DwInstallKeys};
ghost use Rattle.c_seal.specs.Promises.{DwSeal};
ghost use Rattle.c_open.specs.Promises.{DwOpen};
ghost use Rattle.c_header.specs.Promises.{DwReadHeader};
ghost use Rattle.c_retry.specs.Promises.{DwWriteRetry, DwCheckRetry};

use c_key_record::KeyRecord;

// RFC 9000 section 16: reports the value of the integer at the start, and the bytes it took.
#[unsafe(no_mangle)]
pub extern "C" fn dw_read_integer(bytes: &[u8], report: &mut [u64; 2]) -> u32
    ensures { DwReadInteger bytes.now report.old result report.new }
{
    c_numbers::read_integer(bytes, report)
}

// RFC 9000 section 17.1: reports the fewest bytes that tell the number apart.
#[unsafe(no_mangle)]
pub extern "C" fn dw_smallest_length(
    number: u64,
    any_acknowledged: u32,
    acknowledged: u64,
    report: &mut [u64; 1],
) -> u32
    ensures { DwSmallestLength number any_acknowledged acknowledged report.old result report.new }
{
    c_numbers::smallest_length(number, any_acknowledged, acknowledged, report)
}

// RFC 9000 section 17.1: reports the number in `length` bytes.
#[unsafe(no_mangle)]
pub extern "C" fn dw_shorten(
    number: u64,
    any_acknowledged: u32,
    acknowledged: u64,
    length: usize,
    report: &mut [u64; 1],
) -> u32
    ensures { DwShorten number any_acknowledged acknowledged length report.old result report.new }
{
    c_numbers::shorten(number, any_acknowledged, acknowledged, length, report)
}

// RFC 9000 appendix A.3: reports the full number that a short one stands for.
#[unsafe(no_mangle)]
pub extern "C" fn dw_recover(
    expected: u64,
    truncated: u64,
    length: usize,
    report: &mut [u64; 1],
) -> u32
    ensures { DwRecover expected truncated length report.old result report.new }
{
    c_numbers::recover(expected, truncated, length, report)
}

// RFC 9001 section 5.2: writes one side's Initial keys.
#[unsafe(no_mangle)]
pub extern "C" fn dw_initial_keys(
    version: u32,
    destination: &[u8],
    server: u32,
    keys: &mut KeyRecord,
) -> u32
    ensures { DwInitialKeys version destination.now server keys.old result keys.new }
{
    c_keys::initial_keys(version, destination, server, keys)
}

// RFC 9001 section 5.1: writes one side's keys of a level, from its secret there.
#[unsafe(no_mangle)]
pub extern "C" fn dw_install_keys(
    version: u32,
    level: u32,
    server: u32,
    secret: &[u8; 32],
    keys: &mut KeyRecord,
) -> u32
    ensures { DwInstallKeys version level server secret.now keys.old result keys.new }
{
    c_keys::install_keys(version, level, server, secret, keys)
}

// RFC 9001 section 5: seals an Initial packet at the output's start, and reports its length.
#[unsafe(no_mangle)]
pub extern "C" fn dw_seal(
    keys: &KeyRecord,
    number: u64,
    any_acknowledged: u32,
    acknowledged: u64,
    length: usize,
    destination: &[u8],
    source: &[u8],
    token: &[u8],
    payload: &[u8],
    out: &mut [u8],
    report: &mut [u64; 1],
) -> u32
    ensures { DwSeal keys.now any_acknowledged acknowledged (record { destination = destination.now; source = source.now; token = holding token.now; payload = payload.now; packet_number = number; number_length = length }) report.old result report.new out.old out.new }
{
    c_seal::seal(
        keys,
        number,
        any_acknowledged,
        acknowledged,
        length,
        destination,
        source,
        token,
        payload,
        out,
        report,
    )
}

// RFC 9001 section 5: seals a 0-RTT or Handshake packet, by the level of the keys, and reports its length.
#[unsafe(no_mangle)]
pub extern "C" fn dw_seal_long(
    keys: &KeyRecord,
    number: u64,
    any_acknowledged: u32,
    acknowledged: u64,
    length: usize,
    destination: &[u8],
    source: &[u8],
    payload: &[u8],
    out: &mut [u8],
    report: &mut [u64; 1],
) -> u32
    ensures { DwSeal keys.now any_acknowledged acknowledged (record { destination = destination.now; source = source.now; token = absent; payload = payload.now; packet_number = number; number_length = length }) report.old result report.new out.old out.new }
{
    c_seal::seal_long(
        keys,
        number,
        any_acknowledged,
        acknowledged,
        length,
        destination,
        source,
        payload,
        out,
        report,
    )
}

// RFC 9001 section 5: opens the packet that begins a datagram, and reports its number, the number's length, the header's and the
// payload's, and the bytes used.
#[unsafe(no_mangle)]
pub extern "C" fn dw_open(
    keys: &KeyRecord,
    expected: &mut u64,
    datagram: &[u8],
    out: &mut [u8],
    report: &mut [u64; 5],
) -> u32
    ensures { DwOpen keys.now datagram.now expected.old expected.new report.old result report.new out.old out.new }
{
    c_open::open(keys, expected, datagram, out, report)
}

// RFC 9000 sections 17.2.2 to 17.2.4: reports the version, place and length of both IDs and of the token, Length, the number's place,
// and the level.
#[unsafe(no_mangle)]
pub extern "C" fn dw_read_header(datagram: &[u8], report: &mut [u64; 10]) -> u32
    ensures { DwReadHeader datagram.now report.old result report.new }
{
    c_header::read_header(datagram, report)
}

// RFC 9001 section 5.8: writes a Retry at the output's start, and reports its length.
#[unsafe(no_mangle)]
pub extern "C" fn dw_write_retry(
    version: u32,
    original: &[u8],
    destination: &[u8],
    source: &[u8],
    token: &[u8],
    low_bits: u64,
    out: &mut [u8],
    report: &mut [u64; 1],
) -> u32
    ensures { DwWriteRetry version original.now destination.now source.now token.now low_bits report.old result report.new out.old out.new }
{
    c_retry::write_retry(
        version,
        original,
        destination,
        source,
        token,
        low_bits,
        out,
        report,
    )
}

// RFC 9001 section 5.8: checks a Retry, and reports the version, and place and length of both IDs and of the token.
#[unsafe(no_mangle)]
pub extern "C" fn dw_check_retry(original: &[u8], datagram: &[u8], report: &mut [u64; 7]) -> u32
    ensures { DwCheckRetry original.now datagram.now report.old result report.new }
{
    c_retry::check_retry(original, datagram, report)
}
