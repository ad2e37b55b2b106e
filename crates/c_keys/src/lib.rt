// RFC 9001 sections 5.1 and 5.2 for C: one side's keys, as a key record.
#![tactic(auto)]

ghost use Rattle.std.specs.Prelude.{◌≡◌};
ghost use Rattle.keys.specs.Answers.{side_of};
ghost use Rattle.c_keys.specs.Arguments.{side_by};
ghost use Rattle.c_keys.specs.Promises.{DwInitialKeys, DwInstallKeys};

use c_key_record::{KeyRecord, key_bytes};
use keys::Side;

// The side whose keys are meant: 0 is the client.
// Kept: a number for the side, as C hands it over.
fn side_by(server: u32) -> Side
    ensures { side_of result ≡ side_by server }
{
    if server == 0 {
        Side::Client
    } else {
        Side::Server
    }
}

// Section 5.2: writes one side's Initial keys.
pub fn initial_keys(version: u32, destination: &[u8], server: u32, keys: &mut KeyRecord) -> u32
    ensures { DwInitialKeys version destination.now server keys.old result keys.new }
{
    let made = keys::initial_keys(version, destination, side_by(server));
    c_forms::report(made.map(key_bytes), keys)
}

// Section 5.1: writes one side's keys of a level.
pub fn install_keys(
    version: u32,
    level: u32,
    server: u32,
    secret: &[u8; 32],
    keys: &mut KeyRecord,
) -> u32
    ensures { DwInstallKeys version level server secret.now keys.old result keys.new }
{
    let made = keys::install_keys(version, level, side_by(server), secret);
    c_forms::report(made.map(key_bytes), keys)
}
