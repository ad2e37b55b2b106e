// RFC 9001 section 5 for C: a packet opened with a key record.
#![tactic(auto)]

ghost use Rattle.std.specs.Prelude.{◌≡◌};
ghost use Rattle.open_decrypting.specs.Decrypting.{report_of};
ghost use Rattle.c_open.specs.Promises.{report_numbers, DwOpen};

use c_key_record::{KeyRecord, load_keys};
use open_writing::Opened;

// What is reported of a packet that was opened.
fn opened_numbers(opened: Opened) -> [u64; 5]
    ensures { result ≡ report_numbers (report_of opened) }
{
    [
        opened.number.0,
        opened.number_length as u64,
        opened.header_length as u64,
        opened.payload_length as u64,
        opened.used as u64,
    ]
}

// Opens the packet that begins a datagram, and reports its number, the number's length, the header's and the payload's, and the
// bytes used.
pub fn open(
    keys: &KeyRecord,
    expected: &mut u64,
    datagram: &[u8],
    out: &mut [u8],
    report: &mut [u64; 5],
) -> u32
    ensures { DwOpen keys.now datagram.now expected.old expected.new report.old result report.new out.old out.new }
{
    let opened = open::open(load_keys(*keys), expected, datagram, out);
    c_forms::report(opened.map(opened_numbers), report)
}
